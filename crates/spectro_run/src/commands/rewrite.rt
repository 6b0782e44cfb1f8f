ghost use Rattle.std.specs.Prelude.{◌≡◌, Some, IfErr};
ghost use Rattle.spectro_aut.specs.Written.{text_of};
ghost use Rattle.spectro_io.specs.Faults.{Rose};
ghost use Rattle.spectro_run.specs.Reading.{JudgesWhole};
ghost use Rattle.spectro_run.specs.Stops.{Counts, IsPrepared};
ghost use Rattle.spectro_words.specs.Commands as words;

use crate::status::{Status, Which};
use crate::texts::take_system;
use crate::written::Written;
use spectro_io::{Failed, Shelf, Sink};
use spectro_lts::Lts;
use std::alloc::Global;

/// A system that is written.
#[derive(Drop)]
pub struct Rewritten {
    lts: Lts,
}

impl Written for Rewritten {
    ghost text = { λ rewritten. text_of rewritten.lts };

    fn write<O: Sink>(&self, out: &mut O) -> Result<(), Failed> {
        spectro_aut::write(&self.lts, out)
    }
}

/// The file's system, to be written.
pub fn rewrite<H: Shelf>(alloc: Global, file: &str, shelf: &mut H) -> Result<Rewritten, Status>
    ensures prepared { IsPrepared (H.texts shelf.old) (words.rewrite file.now) (λ rewritten. text_of rewritten.lts)
        (Rose (H.faults shelf.old) (H.faults shelf.new)) result }
    ensures whole { IfErr result (JudgesWhole (H.texts shelf.old) (Some (words.rewrite file.now)) (H.left shelf.new)) }
    ensures counts { Counts (H.faults shelf.old) (H.faults shelf.new) result }
    ensures texts { H.texts shelf.new ≡ H.texts shelf.old }
{
    let lts = take_system(alloc, file, Which::Left, shelf)?;
    Ok(Rewritten { lts })
}
