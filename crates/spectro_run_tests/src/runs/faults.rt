use super::{run_words, tells};
use std::alloc::{AllocError, Global};
use std::process::Abort;
use std::test::Fail;

const CANNOT_READ: &str = "spectro: cannot read\n";

const CANNOT_WRITE: &str = "spectro: cannot write\n";

// Where a call of the shelf or of the output fails, the words end so.
fn stops(
    rt: &impl Abort,
    alloc: Global,
    line: &str,
    fails: [u64; 3],
    code: u8,
    output: &str,
    message: &str,
) -> Result<(), AllocError> {
    let run = run_words(alloc, line, fails)?;
    tells(rt, line, &run, code, output, message);
    Ok(())
}

// The file is opened in call 1 of the shelf and read in calls 2 to 4, the weights in calls 5 and 6 to 8.
#[test]
fn a_fault_of_the_shelf_is_answered_wherever_it_comes(rt: HostRuntime) -> Result<(), Fail> {
    for call in 1..9 {
        stops(
            &rt,
            rt.alloc(),
            "eval tt stopped.aut --weights weights.txt",
            [call, 0, 0],
            5,
            "",
            CANNOT_READ,
        )?;
    }
    Ok(())
}

// The file is opened in call 1 of the shelf and read in calls 2 to 6, of which the first has the fault and the last finds the
// end.
#[test]
fn a_text_is_judged_when_it_was_read_to_its_end(rt: HostRuntime) -> Result<(), Fail> {
    let line = "rewrite headless.aut";
    for call in 1..7 {
        stops(&rt, rt.alloc(), line, [call, 0, 0], 5, "", CANNOT_READ)?;
    }
    let fault = "spectro: headless.aut:1: NoHeader\n";
    stops(&rt, rt.alloc(), line, [7, 0, 0], 3, "", fault)?;
    Ok(())
}

// The output takes one byte a call.
#[test]
fn a_fault_of_the_output_is_answered_wherever_it_comes(rt: HostRuntime) -> Result<(), Fail> {
    for (line, call, output) in [
        ("eval tt stopped.aut", 1, ""),
        ("eval tt stopped.aut", 23, "true\nprice 0 1 0 0 0 0"),
        ("price tt", 7, "tt\npri"),
        ("rewrite step.aut", 20, "des (0, 1, 2)\n(0, \""),
        ("size stopped.aut stopped.aut", 8, "pairs 2"),
        ("compare stopped.aut stopped.aut", 8, "left: 1"),
        ("demo 1", 8, "demo 1\n"),
    ] {
        stops(&rt, rt.alloc(), line, [0, call, 0], 6, output, CANNOT_WRITE)?;
    }
    Ok(())
}

#[test]
fn a_message_that_is_cut_off_leaves_the_status(rt: HostRuntime) -> Result<(), Fail> {
    for (call, message) in [(1, ""), (9, "spectro:")] {
        stops(
            &rt,
            rt.alloc(),
            "rewrite nothing.aut",
            [0, 0, call],
            5,
            "",
            message,
        )?;
    }
    Ok(())
}
