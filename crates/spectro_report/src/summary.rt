ghost use Rattle.std.specs.Prelude.{◌≡◌, [], ◌++◌, map, not, OnErr};
ghost use Rattle.std.specs.List.{count_by, zip};
ghost use Rattle.spectro_io.specs.Batches.{Puts};
ghost use Rattle.spectro_io.specs.Faults.{HasCause};
ghost use Rattle.spectro_report.specs.Summaries.{direction_line, equivalences_line, failing, holding, summary_text};
ghost use Rattle.spectro_report.specs.Texts.{is_equivalence};
ghost use Rattle.spectro_report.specs.Verdicts.{verdict_of};

use crate::writer::{holds, is_equivalence};
use crate::{Report, Verdict, put_extents};
use spectro_io::{Batch, Digits, Failed, Sink};

/// Puts the summary of a report behind the bytes that are held: how large both sides and the game are, and how many notions
/// hold. Nothing is held after it failed.
pub fn put_summary<O: Sink>(report: &Report, batch: &mut Batch, out: &mut O) -> Result<(), Failed>
    ensures bytes { Puts (O.written out.old) (O.written out.new) result batch.new (batch.old ++ summary_text report.now) }
    ensures held { OnErr result (batch.new ≡ []) }
    ensures cause { HasCause (O.faults out.old) (O.faults out.new) result }
{
    put_extents(report, batch, out)?;
    put_direction(b"left to right: ", report.all_forth(), batch, out)?;
    put_direction(b"right to left: ", report.all_back(), batch, out)?;
    put_both(report.all_forth(), report.all_back(), batch, out)
}

// Puts a line of how many of the verdicts say that a notion holds, and how many that it fails.
fn put_direction<O: Sink>(
    title: &[u8],
    verdicts: &[Verdict],
    batch: &mut Batch,
    out: &mut O,
) -> Result<(), Failed>
    ensures bytes { Puts (O.written out.old) (O.written out.new) result batch.new (batch.old ++ direction_line title.now (map verdict_of verdicts.now)) }
    ensures held { OnErr result (batch.new ≡ []) }
    ensures cause { HasCause (O.faults out.old) (O.faults out.new) result }
{
    let holding = Digits::of(holding(verdicts) as u64);
    let failing = Digits::of(failing(verdicts) as u64);
    batch.put_all(
        &[
            title,
            holding.as_bytes(),
            b" hold, ",
            failing.as_bytes(),
            b" fail\n",
        ],
        out,
    )
}

fn holding(verdicts: &[Verdict]) -> usize
    ensures { result ≡ holding (map verdict_of verdicts.now) }
{
    verdicts.iter().filter(|verdict| holds(*verdict)).count()
}

fn failing(verdicts: &[Verdict]) -> usize
    ensures { result ≡ failing (map verdict_of verdicts.now) }
{
    verdicts.iter().filter(|verdict| !holds(*verdict)).count()
}

// Puts a line of how many notions hold in both directions, and how many do not.
fn put_both<O: Sink>(
    forth: &[Verdict],
    back: &[Verdict],
    batch: &mut Batch,
    out: &mut O,
) -> Result<(), Failed>
    ensures bytes { Puts (O.written out.old) (O.written out.new) result batch.new
        (batch.old ++ equivalences_line (map verdict_of forth.now) (map verdict_of back.now)) }
    ensures held { OnErr result (batch.new ≡ []) }
    ensures cause { HasCause (O.faults out.old) (O.faults out.new) result }
{
    let equal = Digits::of(equal(forth, back) as u64);
    let unequal = Digits::of(unequal(forth, back) as u64);
    batch.put_all(
        &[
            b"equivalences: ",
            equal.as_bytes(),
            b" yes, ",
            unequal.as_bytes(),
            b" no\n",
        ],
        out,
    )
}

fn equal(forth: &[Verdict], back: &[Verdict]) -> usize
    ensures { result ≡ count_by (λ both. is_equivalence (verdict_of both.0) (verdict_of both.1)) (zip forth.now back.now) }
{
    let both = forth.iter().zip(back.iter());
    both.filter(|(forth, back)| is_equivalence(*forth, *back))
        .count()
}

fn unequal(forth: &[Verdict], back: &[Verdict]) -> usize
    ensures { result ≡ count_by (λ both. not (is_equivalence (verdict_of both.0) (verdict_of both.1))) (zip forth.now back.now) }
{
    let both = forth.iter().zip(back.iter());
    both.filter(|(forth, back)| !is_equivalence(*forth, *back))
        .count()
}
