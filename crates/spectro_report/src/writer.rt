ghost use Rattle.std.specs.Prelude.{◌≡◌, ◌++◌, codes, length, map};
ghost use Rattle.std.specs.List.{list_any};
ghost use Rattle.spectro_io.specs.Batches.{Puts};
ghost use Rattle.spectro_io.specs.Bytes.{WritesWhole};
ghost use Rattle.spectro_io.specs.Faults.{HasCause};
ghost use Rattle.spectro_hmltext.specs.SheetTexts.{sheet_text};
ghost use Rattle.spectro_report.specs.Texts.{
  answer_text,
  equivalence_line,
  equivalence_lines,
  is_by_node,
  is_equivalence,
  is_holding,
  names_a_node,
  nodes_part,
  report_text,
  verdict_lines,
};
ghost use Rattle.spectro_report.specs.Verdicts.{verdict_of};

use crate::{Report, Shown, Verdict, put_extents, put_verdict};
use spectro_energy::Parts;
use spectro_hml::Sheet;
use spectro_hmltext::put_sheet;
use spectro_io::{Batch, Failed, Sink};
use spectro_notions::Notions;

/// Writes the text of a report that was made for these notions, with so many parts of each price. It takes no memory.
pub fn text<O: Sink>(
    report: &Report,
    notions: &Notions,
    parts: Parts,
    out: &mut O,
) -> Result<(), Failed>
    requires forth { length report.now.forth ≡ length notions.now }
    requires back { length report.now.back ≡ length notions.now }
    ensures bytes { WritesWhole (O.written out.old) (O.written out.new) result (report_text notions.now parts report.now) }
    ensures cause { HasCause (O.faults out.old) (O.faults out.new) result }
{
    let mut batch = Batch::new();
    put_extents(report, &mut batch, out)?;
    put_section(
        b"left to right\n",
        report.all_forth(),
        notions,
        parts,
        &mut batch,
        out,
    )?;
    put_section(
        b"right to left\n",
        report.all_back(),
        notions,
        parts,
        &mut batch,
        out,
    )?;
    put_equivalences(report, notions, &mut batch, out)?;
    put_nodes(report, &mut batch, out)?;
    batch.flush(out)
}

// Puts the title, and a line for each notion with its verdict.
fn put_section<O: Sink>(
    title: &[u8],
    verdicts: &[Verdict],
    notions: &Notions,
    parts: Parts,
    batch: &mut Batch,
    out: &mut O,
) -> Result<(), Failed>
    requires { length verdicts.now ≡ length notions.now }
    ensures bytes { Puts (O.written out.old) (O.written out.new) result batch.new
        (batch.old ++ (title.now ++ verdict_lines parts notions.now (map verdict_of verdicts.now))) }
    ensures cause { HasCause (O.faults out.old) (O.faults out.new) result }
{
    batch.put(title, out)?;
    for k in 0..notions.count() {
        put_verdict(notions.name(k), &verdicts[k as usize], parts, batch, out)?;
    }
    Ok(())
}

// Puts the title, and a line for each notion that says whether it holds in both directions.
fn put_equivalences<O: Sink>(
    report: &Report,
    notions: &Notions,
    batch: &mut Batch,
    out: &mut O,
) -> Result<(), Failed>
    requires forth { length report.now.forth ≡ length notions.now }
    requires back { length report.now.back ≡ length notions.now }
    ensures bytes { Puts (O.written out.old) (O.written out.new) result batch.new
        (batch.old ++ (codes "equivalences\n" ++ equivalence_lines notions.now report.now.forth report.now.back)) }
    ensures cause { HasCause (O.faults out.old) (O.faults out.new) result }
{
    batch.put(b"equivalences\n", out)?;
    for k in 0..notions.count() {
        put_equivalence(notions.name(k), report.forth(k), report.back(k), batch, out)?;
    }
    Ok(())
}

fn put_equivalence<O: Sink>(
    name: &str,
    forth: &Verdict,
    back: &Verdict,
    batch: &mut Batch,
    out: &mut O,
) -> Result<(), Failed>
    ensures bytes { Puts (O.written out.old) (O.written out.new) result batch.new
        (batch.old ++ equivalence_line name.now (verdict_of forth.now) (verdict_of back.now)) }
    ensures cause { HasCause (O.faults out.old) (O.faults out.new) result }
{
    batch.put(name.as_bytes(), out)?;
    batch.put(answer(is_equivalence(forth, back)), out)
}

pub(crate) fn is_equivalence(forth: &Verdict, back: &Verdict) -> bool
    ensures { result ≡ is_equivalence (verdict_of forth.now) (verdict_of back.now) }
{
    holds(forth) && holds(back)
}

fn answer(both: bool) -> &'static [u8]
    ensures { result.now ≡ answer_text both }
{
    if both { b" yes\n" } else { b" no\n" }
}

pub(crate) fn holds(verdict: &Verdict) -> bool
    ensures { result ≡ is_holding (verdict_of verdict.now) }
{
    matches!(verdict, Verdict::Holds)
}

// Puts the sheet where a line names a node of it.
fn put_nodes<O: Sink>(report: &Report, batch: &mut Batch, out: &mut O) -> Result<(), Failed>
    ensures bytes { Puts (O.written out.old) (O.written out.new) result batch.new (batch.old ++ nodes_part report.now) }
    ensures cause { HasCause (O.faults out.old) (O.faults out.new) result }
{
    if names_a_node(report) {
        return put_all_nodes(report.sheet(), batch, out);
    }
    Ok(())
}

// Puts the title and the lines of the sheet.
fn put_all_nodes<O: Sink>(sheet: &Sheet, batch: &mut Batch, out: &mut O) -> Result<(), Failed>
    ensures bytes { Puts (O.written out.old) (O.written out.new) result batch.new (batch.old ++ (codes "nodes\n" ++ sheet_text sheet.now)) }
    ensures cause { HasCause (O.faults out.old) (O.faults out.new) result }
{
    batch.put(b"nodes\n", out)?;
    put_sheet(sheet, batch, out)
}

// Whether a line names a node.
fn names_a_node(report: &Report) -> bool
    ensures { result ≡ names_a_node report.now }
{
    let forth = some_is_by_node(report.all_forth());
    let back = some_is_by_node(report.all_back());
    forth || back
}

fn some_is_by_node(verdicts: &[Verdict]) -> bool
    ensures { result ≡ list_any is_by_node (map verdict_of verdicts.now) }
{
    any_by_node(verdicts)
}

fn any_by_node(verdicts: &[Verdict]) -> bool
    ensures { result ≡ list_any (λ verdict. is_by_node (verdict_of verdict)) verdicts.now }
{
    verdicts.iter().any(|verdict| is_by_node(verdict))
}

fn is_by_node(verdict: &Verdict) -> bool
    ensures { result ≡ is_by_node (verdict_of verdict.now) }
{
    match verdict {
        Verdict::Fails {
            shown: Shown::ByNode,
            ..
        } => true,
        _ => false,
    }
}
