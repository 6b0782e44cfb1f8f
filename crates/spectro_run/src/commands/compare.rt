ghost use Rattle.std.specs.Prelude.{◌≡◌, ℕ, List, length, IfOk, IfErr, Some};
ghost use Rattle.spectro_aut.specs.RoundTrip.{KeepsLimits};
ghost use Rattle.spectro_io.specs.Faults.{Rose};
ghost use Rattle.spectro_run.specs.Comparisons.{RefusesSize};
ghost use Rattle.spectro_run.specs.Measures.{IsReportText};
ghost use Rattle.spectro_run.specs.Reading.{JudgesWhole};
ghost use Rattle.spectro_run.specs.Stops.{Counts, IsPrepared, Stops};
ghost use Rattle.spectro_words.specs.Commands as words;
ghost use Rattle.spectro_words.specs.Limits.{IsLimit};
ghost use Rattle.spectro_words.specs.Words.{named};

use crate::output::parts_shown;
use crate::status::{Status, Which};
use crate::texts::{take_notions, take_system, take_weights};
use crate::written::Written;
use spectro_energy::Parts;
use spectro_io::{Failed, Shelf, Sink};
use spectro_lts::Lts;
use spectro_notions::Notions;
use spectro_report::{Report, report};
use spectro_weights::Weights;
use std::alloc::Global;
use std::marker::Model;

/// A report for these notions, with so many parts of each price.
#[derive(Drop)]
pub struct Compared {
    report: Report,
    notions: Notions,
    parts: Parts,
}

impl Model for Compared {
    ghost use Rattle.std.specs.Prelude.{◌≡◌, ℕ, List, length};
    ghost use Rattle.spectro_report.specs.Texts.{report_text};

    // The text of the report.
    ghost Value = { List ℕ };

    ghost view = { λ compared. report_text compared.notions compared.parts compared.report };

    // There is a verdict for each of the notions, in both directions.
    ghost invariant = { λ compared. (length compared.report.forth ≡ length compared.notions) × (length compared.report.back ≡ length compared.notions) };
}

impl Written for Compared {
    ghost text = { λ text. text };

    fn write<O: Sink>(&self, out: &mut O) -> Result<(), Failed> {
        spectro_report::text(&self.report, &self.notions, self.parts, out)
    }
}

// The report on the two systems, to be written, if their comparison is at most the limit.
fn report_on(
    alloc: Global,
    left: &Lts,
    right: &Lts,
    weights: &Weights,
    notions: Notions,
    parts: Parts,
    limit: u32,
) -> Result<Compared, Status>
    requires left { KeepsLimits left.now }
    requires right { KeepsLimits right.now }
    requires limit { IsLimit limit }
    ensures text { IfOk result (IsReportText left.now right.now weights.now notions parts limit) }
    ensures stopped { IfErr result (Stops (RefusesSize left.now right.now limit) ⊥) }
{
    let report = report(alloc, left, right, weights, &notions, limit)?;
    Ok(Compared {
        report,
        notions,
        parts,
    })
}

/// The report on the files' systems, to be written, if their comparison is at most the limit.
pub fn compare<H: Shelf>(
    alloc: Global,
    left: &str,
    right: &str,
    weights: Option<&str>,
    notions: Option<&str>,
    limit: u32,
    shelf: &mut H,
) -> Result<Compared, Status>
    requires limit { IsLimit limit }
    ensures prepared { IsPrepared (H.texts shelf.old) (words.compare left.now right.now (named weights.entry) (named notions.entry) limit) (λ text. text)
        (Rose (H.faults shelf.old) (H.faults shelf.new)) result }
    ensures whole { IfErr result (JudgesWhole (H.texts shelf.old)
        (Some (words.compare left.now right.now (named weights.entry) (named notions.entry) limit)) (H.left shelf.new)) }
    ensures counts { Counts (H.faults shelf.old) (H.faults shelf.new) result }
    ensures texts { H.texts shelf.new ≡ H.texts shelf.old }
{
    let parts = parts_shown(weights);
    let left = take_system(alloc, left, Which::Left, shelf)?;
    let right = take_system(alloc, right, Which::Right, shelf)?;
    let weights = take_weights(alloc, weights, shelf)?;
    let notions = take_notions(alloc, notions, shelf)?;
    report_on(alloc, &left, &right, &weights, notions, parts, limit)
}
