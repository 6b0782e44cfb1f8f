ghost use Rattle.std.specs.Prelude.{IfOk, IfErr};
ghost use Rattle.spectro_aut.specs.Texts.{IsRefused, IsText};

use crate::{AutError, Feed};
use spectro_lts::Lts;
use std::alloc::Global;

/// The system of which the bytes are a text.
pub fn read(alloc: Global, bytes: &[u8]) -> Result<Lts, AutError>
    ensures ok { IfOk result (IsText bytes.now) }
    ensures refused { IfErr result (IsRefused bytes.now) }
{
    let mut feed = Feed::new(alloc)?;
    feed.feed(bytes)?;
    feed.finish()
}
