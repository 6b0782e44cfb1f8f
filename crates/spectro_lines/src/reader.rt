ghost use Rattle.std.specs.Prelude.{IfOk, IfErr};
ghost use Rattle.spectro_lines.specs.Feeding.{IsTold};
ghost use Rattle.spectro_lines.specs.Texts.{IsText};

use crate::{Feed, Grammar, LineError};
use std::alloc::Global;

/// The value of the text.
pub fn read<G: Grammar>(alloc: Global, text: &[u8]) -> Result<G::Value, LineError<G::Kind>>
    ensures ok { IfOk result (IsText G.form text.now) }
    ensures refused { IfErr result (IsTold G.form text.now) }
{
    let mut feed = Feed::<G>::new(alloc);
    feed.feed(text)?;
    feed.finish()
}
