ghost use Rattle.std.specs.Prelude.{◌≡◌, ◌+◌, ◌≤◌, length, IfOk, IfErr, Some};
ghost use Rattle.spectro_aut.specs.RoundTrip.{KeepsLimits};
ghost use Rattle.spectro_io.specs.Faults.{Rose};
ghost use Rattle.spectro_run.specs.Commands.Size.{size_line};
ghost use Rattle.spectro_run.specs.Comparisons.{RefusesSize};
ghost use Rattle.spectro_run.specs.Measures.{IsMeasured};
ghost use Rattle.spectro_run.specs.Reading.{JudgesWhole};
ghost use Rattle.spectro_run.specs.Stops.{Counts, IsPrepared, Stops};
ghost use Rattle.spectro_words.specs.Commands as words;
ghost use Rattle.spectro_words.specs.Limits.{IsLimit};

use crate::status::{Status, Which};
use crate::texts::take_system;
use crate::written::Written;
use spectro_io::{Digits, Failed, Shelf, Sink, write_all};
use spectro_lts::Lts;
use spectro_pairs::{ExploreError, explore};
use spectro_weights::Weights;
use std::alloc::Global;

/// How many pairs a comparison has, and how many positions.
#[derive(Clone, Copy)]
pub struct Extent {
    pairs: u32,
    positions: u32,
}

impl Written for Extent {
    ghost text = { λ extent. size_line extent.pairs extent.positions };

    fn write<O: Sink>(&self, out: &mut O) -> Result<(), Failed> {
        let pairs = Digits::of(u64::from(self.pairs));
        let positions = Digits::of(u64::from(self.positions));
        write_all(
            &[
                b"pairs ",
                pairs.as_bytes(),
                b", positions ",
                positions.as_bytes(),
                b"\n",
            ],
            out,
        )
    }
}

// The extent of the comparison of the two systems, if it is at most the limit.
fn extent_of(alloc: Global, left: &Lts, right: &Lts, limit: u32) -> Result<Extent, Status>
    requires left { KeepsLimits left.now }
    requires right { KeepsLimits right.now }
    requires limit { IsLimit limit }
    ensures ok { IfOk result (λ extent. IsMeasured left.now right.now limit extent.pairs extent.positions) }
    ensures stopped { IfErr result (Stops (RefusesSize left.now right.now limit) ⊥) }
{
    let both = Lts::join(alloc, left, right)?;
    let start = (left.initial(), left.states() + right.initial());
    match explore(alloc, &both, &Weights::new(alloc), &[start], limit) {
        Ok(arena) => Ok(Extent {
            pairs: arena.pair_count(),
            positions: arena.size(),
        }),
        Err(ExploreError::TooLarge { .. }) => Err(Status::TooLarge { limit }),
        Err(ExploreError::OutOfMemory) => Err(Status::OutOfMemory),
    }
}

/// The extent of the comparison of the files' systems, if it is at most the limit.
pub fn size<H: Shelf>(
    alloc: Global,
    left: &str,
    right: &str,
    limit: u32,
    shelf: &mut H,
) -> Result<Extent, Status>
    requires limit { IsLimit limit }
    ensures prepared { IsPrepared (H.texts shelf.old) (words.size left.now right.now limit) (λ extent. size_line extent.pairs extent.positions)
        (Rose (H.faults shelf.old) (H.faults shelf.new)) result }
    ensures whole { IfErr result (JudgesWhole (H.texts shelf.old) (Some (words.size left.now right.now limit)) (H.left shelf.new)) }
    ensures counts { Counts (H.faults shelf.old) (H.faults shelf.new) result }
    ensures texts { H.texts shelf.new ≡ H.texts shelf.old }
{
    let left = take_system(alloc, left, Which::Left, shelf)?;
    let right = take_system(alloc, right, Which::Right, shelf)?;
    extent_of(alloc, &left, &right, limit)
}
