ghost use Rattle.std.specs.Prelude.{◌≡◌, ◌≤◌, length, IfOk, IfErr};
ghost use Rattle.spectro_spec.specs.System.{join};
ghost use Rattle.spectro_report.specs.Clauses.{AreLeast, HoldBelow, IsRefused, IsSide};
ghost use Rattle.spectro_report.specs.Compared.{initial_of_right};
ghost use Rattle.spectro_report.specs.Kept.{extent_in};
ghost use Rattle.spectro_report.specs.Reports.{IsReport, extent_of};
ghost use Rattle.spectro_pairs.specs.declared.pairs.TheConstants.{MAX_LIMIT};

use crate::comparison::compared;
use crate::reported::Extent;
use crate::{Report, ReportError};
use spectro_build::built_nodes_are_exact;
use spectro_lts::Lts;
use spectro_notions::Notions;
use spectro_theory::{least_prices_are_reached, smaller_bounds_hold_more};
use spectro_weights::Weights;
use std::alloc::Global;

/// The report on two systems, where the game of their comparison has at most `limit` positions.
pub fn report(
    alloc: Global,
    left: &Lts,
    right: &Lts,
    weights: &Weights,
    notions: &Notions,
    limit: u32,
) -> Result<Report, ReportError>
    requires left { IsSide left.now }
    requires right { IsSide right.now }
    requires limit { limit ≤ MAX_LIMIT }
    ensures report { IfOk result (λ report. IsReport weights.now left.now right.now notions.now report) }
    ensures size { IfOk result (λ report. report.size ≤ limit) }
    ensures limit { IfErr result (IsRefused left.now right.now limit) }

    // what follows for the verdicts
    ensures forth_each { IfOk result (λ report. length report.forth ≡ length notions.now) }
    ensures back_each { IfOk result (λ report. length report.back ≡ length notions.now) }
    ensures forth_least { IfOk result (λ report. AreLeast weights.now (join left.now right.now) left.now.initial (initial_of_right left.now right.now)
        report.forth) }
    ensures back_least { IfOk result (λ report. AreLeast weights.now (join left.now right.now) (initial_of_right left.now right.now) left.now.initial
        report.back) }
    ensures forth_below { IfOk result (λ report. HoldBelow notions.now report.forth) }
    ensures back_below { IfOk result (λ report. HoldBelow notions.now report.back) }
{
    built_nodes_are_exact();
    least_prices_are_reached();
    smaller_bounds_hold_more();
    let both = Lts::join(alloc, left, right)?;
    let start = (left.initial(), left.states() + right.initial());
    let found = compared(alloc, &both, weights, notions, start, limit)?;
    Ok(Report {
        left: extent_of(left),
        right: extent_of(right),
        pairs: found.pairs,
        size: found.size,
        energies: found.energies,
        forth: found.said.forth,
        back: found.said.back,
        sheet: found.said.sheet,
    })
}

fn extent_of(lts: &Lts) -> Extent
    ensures { extent_in result ≡ extent_of lts.now }
{
    Extent {
        states: lts.states(),
        transitions: lts.step_count(),
    }
}
