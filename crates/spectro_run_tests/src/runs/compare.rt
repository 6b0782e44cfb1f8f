use super::writes;
use std::alloc::{AllocError, Global};
use std::process::Abort;
use std::test::Fail;

// The notions of the spectrum, in their order.
const NAMES: [&str; 13] = [
    "enabledness",
    "traces",
    "failures",
    "revivals",
    "readiness",
    "failure-traces",
    "ready-traces",
    "impossible-futures",
    "possible-futures",
    "simulation",
    "ready-simulation",
    "two-nested-simulation",
    "bisimulation",
];

const ALL: &[u8; 13] = b"+++++++++++++";

const NONE: &[u8; 13] = b"-------------";

// Enabledness.
const FIRST: &[u8; 13] = b"+------------";

// Enabledness, traces and simulation.
const WITHOUT_REFUSALS: &[u8; 13] = b"++-------+---";

// Those in which no formula has two positive clauses.
const WITHOUT_BRANCHES: &[u8; 13] = b"++++-+-+-----";

const SAME: &str = "left: 1 states, 0 transitions\n\
    right: 1 states, 0 transitions\n\
    pairs 2, positions 8, energies 0\n";

const STOPPED_AND_STEP: &str = "left: 1 states, 0 transitions\n\
    right: 2 states, 1 transitions\n\
    pairs 3, positions 10, energies 3\n";

const STEP_AND_STOPPED: &str = "left: 2 states, 1 transitions\n\
    right: 1 states, 0 transitions\n\
    pairs 3, positions 10, energies 3\n";

const TWO_STEPS_AND_STOPPED: &str = "left: 2 states, 2 transitions\n\
    right: 1 states, 0 transitions\n\
    pairs 3, positions 10, energies 3\n";

const EARLY_AND_LATE: &str = "left: 4 states, 4 transitions\n\
    right: 3 states, 3 transitions\n\
    pairs 10, positions 39, energies 10\n";

const LATE_AND_EARLY: &str = "left: 3 states, 3 transitions\n\
    right: 4 states, 4 transitions\n\
    pairs 10, positions 39, energies 10\n";

const QUEUE_AND_BAG: &str = "left: 7 states, 12 transitions\n\
    right: 6 states, 12 transitions\n\
    pairs 20, positions 68, energies 20\n";

const NO_STEP: &str = "1 2 0 0 1 1 and{not <\"a\">tt}";

const A_STEP: &str = "1 1 0 0 0 0 <\"a\">tt";

const NO_C: &str = "2 2 0 0 1 1 <\"a\">and{not <\"c\">tt}";

const BOTH: &str = "2 2 1 1 0 0 <\"a\">and{<\"c\">tt,<\"b\">tt}";

// The lines of one direction: the notions that hold (+) or fail (-), and the price and the formula with which they fail.
fn put_direction(text: &mut String, holds: &[u8; 13], failure: &str) -> Result<(), AllocError> {
    for k in 0..13 {
        text.push_str(NAMES[k])?;
        if holds[k] == b'+' {
            text.push_str(" holds\n")?;
        } else {
            write!(text, " fails {failure}\n")?;
        }
    }
    Ok(())
}

// The lines of the notions that hold in both directions or not.
fn put_equivalences(
    text: &mut String,
    forth: &[u8; 13],
    back: &[u8; 13],
) -> Result<(), AllocError> {
    for k in 0..13 {
        text.push_str(NAMES[k])?;
        let both = forth[k] == b'+' && back[k] == b'+';
        text.push_str(if both { " yes\n" } else { " no\n" })?;
    }
    Ok(())
}

// The words are done, and write the report with the lines of its sides and of the game, and with these directions.
fn reports(
    rt: &impl Abort,
    alloc: Global,
    line: &str,
    sides: &str,
    forth: (&[u8; 13], &str),
    back: (&[u8; 13], &str),
) -> Result<(), AllocError> {
    let mut text = String::from_str(alloc, sides)?;
    text.push_str("left to right\n")?;
    put_direction(&mut text, forth.0, forth.1)?;
    text.push_str("right to left\n")?;
    put_direction(&mut text, back.0, back.1)?;
    text.push_str("equivalences\n")?;
    put_equivalences(&mut text, forth.0, back.0)?;
    writes(rt, alloc, line, text.as_str())
}

#[test]
fn reports_for_the_notions_of_the_spectrum(rt: HostRuntime) -> Result<(), Fail> {
    for (line, sides, forth, back) in [
        (
            "compare stopped.aut stopped.aut",
            SAME,
            (ALL, ""),
            (ALL, ""),
        ),
        (
            "compare stopped.aut stopped.aut --limit 8",
            SAME,
            (ALL, ""),
            (ALL, ""),
        ),
        (
            "compare early.aut late.aut",
            EARLY_AND_LATE,
            (WITHOUT_REFUSALS, NO_C),
            (WITHOUT_BRANCHES, BOTH),
        ),
        (
            "compare late.aut early.aut",
            LATE_AND_EARLY,
            (WITHOUT_BRANCHES, BOTH),
            (WITHOUT_REFUSALS, NO_C),
        ),
        (
            "compare stopped.aut step.aut",
            STOPPED_AND_STEP,
            (WITHOUT_REFUSALS, NO_STEP),
            (NONE, A_STEP),
        ),
        (
            "compare step.aut stopped.aut",
            STEP_AND_STOPPED,
            (NONE, A_STEP),
            (WITHOUT_REFUSALS, NO_STEP),
        ),
        (
            "compare repeated.aut stopped.aut",
            TWO_STEPS_AND_STOPPED,
            (NONE, A_STEP),
            (WITHOUT_REFUSALS, NO_STEP),
        ),
        (
            "compare queue.aut bag.aut",
            QUEUE_AND_BAG,
            (
                WITHOUT_REFUSALS,
                "3 2 0 0 1 1 <\"PUT !0\"><\"PUT !1\">and{not <\"GET !1\">tt}",
            ),
            (FIRST, "3 1 0 0 0 0 <\"PUT !0\"><\"PUT !1\"><\"GET !1\">tt"),
        ),
    ] {
        reports(&rt, rt.alloc(), line, sides, forth, back)?;
    }
    Ok(())
}

#[test]
fn reports_under_weights_with_seven_parts(rt: HostRuntime) -> Result<(), Fail> {
    for (line, sides, forth, back) in [
        (
            "compare stopped.aut step.aut --weights seven.txt",
            STOPPED_AND_STEP,
            (WITHOUT_REFUSALS, "1 2 0 0 1 1 7 and{not <\"a\">tt}"),
            (NONE, "1 1 0 0 0 0 7 <\"a\">tt"),
        ),
        (
            "compare choice.aut stopped.aut --weights weights.txt",
            TWO_STEPS_AND_STOPPED,
            (NONE, "1 1 0 0 0 0 1 <\"c\">tt"),
            (WITHOUT_REFUSALS, "1 2 0 0 1 1 1 and{not <\"c\">tt}"),
        ),
    ] {
        reports(&rt, rt.alloc(), line, sides, forth, back)?;
    }
    Ok(())
}

#[test]
fn reports_for_the_notions_of_a_file(rt: HostRuntime) -> Result<(), Fail> {
    writes(
        &rt,
        rt.alloc(),
        "compare queue.aut bag.aut --notions two.txt",
        "left: 7 states, 12 transitions\n\
        right: 6 states, 12 transitions\n\
        pairs 20, positions 68, energies 20\n\
        left to right\n\
        two-step-traces holds\n\
        bisimulation fails 3 2 0 0 1 1 <\"PUT !0\"><\"PUT !1\">and{not <\"GET !1\">tt}\n\
        right to left\n\
        two-step-traces holds\n\
        bisimulation fails 3 1 0 0 0 0 <\"PUT !0\"><\"PUT !1\"><\"GET !1\">tt\n\
        equivalences\n\
        two-step-traces yes\n\
        bisimulation no\n",
    )?;
    Ok(())
}
