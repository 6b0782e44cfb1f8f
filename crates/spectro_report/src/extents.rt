ghost use Rattle.std.specs.Prelude.{◌≡◌, [], ◌++◌, OnErr};
ghost use Rattle.std.specs.Fmt.{decimal};
ghost use Rattle.spectro_io.specs.Batches.{Puts};
ghost use Rattle.spectro_io.specs.Faults.{HasCause};
ghost use Rattle.spectro_report.specs.Kept.{extent_in};
ghost use Rattle.spectro_report.specs.Texts.{extents_text, game_line, side_line};

use crate::Report;
use crate::reported::Extent;
use spectro_io::{Batch, Digits, Failed, Sink};

/// Puts the lines of both sides and of the game behind the bytes that are held. Nothing is held after it failed.
pub fn put_extents<O: Sink>(report: &Report, batch: &mut Batch, out: &mut O) -> Result<(), Failed>
    ensures bytes { Puts (O.written out.old) (O.written out.new) result batch.new
        (batch.old ++ extents_text report.now) }
    ensures held { OnErr result (batch.new ≡ []) }
    ensures cause { HasCause (O.faults out.old) (O.faults out.new) result }
{
    put_side(b"left", report.left(), batch, out)?;
    put_side(b"right", report.right(), batch, out)?;
    put_game(report, batch, out)
}

fn put_side<O: Sink>(
    side: &[u8],
    extent: Extent,
    batch: &mut Batch,
    out: &mut O,
) -> Result<(), Failed>
    ensures bytes { Puts (O.written out.old) (O.written out.new) result batch.new (batch.old ++ side_line side.now (extent_in extent)) }
    ensures held { OnErr result (batch.new ≡ []) }
    ensures cause { HasCause (O.faults out.old) (O.faults out.new) result }
{
    let states = digits(extent.states);
    let transitions = digits(extent.transitions);
    batch.put_all(
        &[
            side,
            b": ",
            states.as_bytes(),
            b" states, ",
            transitions.as_bytes(),
            b" transitions\n",
        ],
        out,
    )
}

fn put_game<O: Sink>(report: &Report, batch: &mut Batch, out: &mut O) -> Result<(), Failed>
    ensures bytes { Puts (O.written out.old) (O.written out.new) result batch.new (batch.old ++ game_line report.now) }
    ensures held { OnErr result (batch.new ≡ []) }
    ensures cause { HasCause (O.faults out.old) (O.faults out.new) result }
{
    let pairs = digits(report.pairs());
    let size = digits(report.size());
    let energies = Digits::of(report.energies());
    batch.put_all(
        &[
            b"pairs ",
            pairs.as_bytes(),
            b", positions ",
            size.as_bytes(),
            b", energies ",
            energies.as_bytes(),
            b"\n",
        ],
        out,
    )
}

fn digits(number: u32) -> Digits
    ensures { result ≡ decimal number }
{
    Digits::of(u64::from(number))
}
