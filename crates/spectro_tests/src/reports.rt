ghost use Rattle.std.specs.Prelude.{◌≡◌, ◌≤◌, length, IfOk};
ghost use Rattle.spectro_report.specs.Clauses.{IsSide};

use crate::samples::system;
use spectro_energy::Parts;
use spectro_io::MemSink;
use spectro_lts::Lts;
use spectro_notions::Notions;
use spectro_report::{Report, ReportError, report, text};
use spectro_weights::Weights;
use std::alloc::{AllocError, Global};
use std::process::Abort;
use std::test::Fail;

// A state without steps.
const STOPPED: [(u32, char, u32); 0] = [];

// After a, either b or c, as the first step decides.
const EARLY_CHOICE: [(u32, char, u32); 4] = [(0, 'a', 1), (0, 'a', 2), (1, 'b', 3), (2, 'c', 3)];

// After a, both b and c.
const LATE_CHOICE: [(u32, char, u32); 3] = [(0, 'a', 1), (1, 'b', 2), (1, 'c', 2)];

// The names of the notions in order, with what is written of each for the early choice against the late one.
const EARLY_AGAINST_LATE: [&str; 45] = [
    "left: 4 states, 4 transitions",
    "right: 3 states, 3 transitions",
    "pairs 10, positions 39, energies 10",
    "left to right",
    "enabledness holds",
    "traces holds",
    "failures fails 2 2 0 0 1 1 <\"a\">and{not <\"c\">tt}",
    "revivals fails 2 2 0 0 1 1 <\"a\">and{not <\"c\">tt}",
    "readiness fails 2 2 0 0 1 1 <\"a\">and{not <\"c\">tt}",
    "failure-traces fails 2 2 0 0 1 1 <\"a\">and{not <\"c\">tt}",
    "ready-traces fails 2 2 0 0 1 1 <\"a\">and{not <\"c\">tt}",
    "impossible-futures fails 2 2 0 0 1 1 <\"a\">and{not <\"c\">tt}",
    "possible-futures fails 2 2 0 0 1 1 <\"a\">and{not <\"c\">tt}",
    "simulation holds",
    "ready-simulation fails 2 2 0 0 1 1 <\"a\">and{not <\"c\">tt}",
    "two-nested-simulation fails 2 2 0 0 1 1 <\"a\">and{not <\"c\">tt}",
    "bisimulation fails 2 2 0 0 1 1 <\"a\">and{not <\"c\">tt}",
    "right to left",
    "enabledness holds",
    "traces holds",
    "failures holds",
    "revivals holds",
    "readiness fails 2 2 1 1 0 0 <\"a\">and{<\"c\">tt,<\"b\">tt}",
    "failure-traces holds",
    "ready-traces fails 2 2 1 1 0 0 <\"a\">and{<\"c\">tt,<\"b\">tt}",
    "impossible-futures holds",
    "possible-futures fails 2 2 1 1 0 0 <\"a\">and{<\"c\">tt,<\"b\">tt}",
    "simulation fails 2 2 1 1 0 0 <\"a\">and{<\"c\">tt,<\"b\">tt}",
    "ready-simulation fails 2 2 1 1 0 0 <\"a\">and{<\"c\">tt,<\"b\">tt}",
    "two-nested-simulation fails 2 2 1 1 0 0 <\"a\">and{<\"c\">tt,<\"b\">tt}",
    "bisimulation fails 2 2 1 1 0 0 <\"a\">and{<\"c\">tt,<\"b\">tt}",
    "equivalences",
    "enabledness yes",
    "traces yes",
    "failures no",
    "revivals no",
    "readiness no",
    "failure-traces no",
    "ready-traces no",
    "impossible-futures no",
    "possible-futures no",
    "simulation no",
    "ready-simulation no",
    "two-nested-simulation no",
    "bisimulation no",
];

// A system that has room for another beside it.
fn side(alloc: Global, states: u32, steps: &[(u32, char, u32)]) -> Result<Lts, Fail>
    requires some { 1 ≤ states }
    requires few { states ≤ 65536 }
    ensures { IfOk result (λ lts. IsSide lts) }
{
    let lts = system(alloc, states, 0, steps)?;
    if lts.step_count() > 1_000_000 || lts.label_count() > 65_536 {
        return Err(Fail::new("no room"));
    }
    Ok(lts)
}

// The report for the thirteen notions under weights of 1.
fn compared(alloc: Global, left: &Lts, right: &Lts, limit: u32) -> Result<Report, ReportError>
    requires left { IsSide left.now }
    requires right { IsSide right.now }
    requires limit { limit ≤ 1000000 }
    ensures forth { IfOk result (λ report. length report.forth ≡ 13) }
    ensures back { IfOk result (λ report. length report.back ≡ 13) }
{
    report(
        alloc,
        left,
        right,
        &Weights::new(alloc),
        &Notions::builtin(alloc),
        limit,
    )
}

// The lines, each with its end.
fn joined(alloc: Global, lines: &[&str]) -> Result<String, AllocError> {
    let mut text = String::new(alloc);
    for line in lines {
        text.push_str(line)?;
        text.push('\n')?;
    }
    Ok(text)
}

// The report writes the lines.
fn writes(rt: &impl Abort, alloc: Global, report: &Report, lines: &[&str]) -> Result<(), Fail>
    requires forth { length report.now.forth ≡ 13 }
    requires back { length report.now.back ≡ 13 }
{
    let mut out = MemSink::new(alloc, 4_000, 7, &[])?;
    let notions = Notions::builtin(alloc);
    assert!(rt; text(report, &notions, Parts::Six, &mut out).is_ok());
    let want = joined(alloc, lines)?;
    assert_eq!(rt; out.written(), want.as_bytes());
    Ok(())
}

#[test]
fn tells_an_early_choice_from_a_late_one(rt: HostRuntime) -> Result<(), Fail> {
    let left = side(rt.alloc(), 4, &EARLY_CHOICE)?;
    let right = side(rt.alloc(), 3, &LATE_CHOICE)?;
    let Ok(report) = compared(rt.alloc(), &left, &right, 39) else {
        return Err(Fail::new("no report"));
    };
    writes(&rt, rt.alloc(), &report, &EARLY_AGAINST_LATE)
}

// Two states without steps have two pairs of four positions each.
#[test]
fn compares_within_the_limit_alone(rt: HostRuntime) -> Result<(), Fail> {
    let stopped = side(rt.alloc(), 1, &STOPPED)?;
    assert!(rt;
        matches!(
            compared(rt.alloc(), &stopped, &stopped, 7),
            Err(ReportError::TooLarge { limit: 7 })
        )
    );
    let Ok(report) = compared(rt.alloc(), &stopped, &stopped, 8) else {
        return Err(Fail::new("no report"));
    };
    assert_eq!(rt;
        (report.pairs(), report.size(), report.energies()),
        (2, 8, 0)
    );
    Ok(())
}
