//! Runs over devices in memory.

mod compare;
mod demo;
mod eval;
mod faults;
mod price;
mod refusals;
mod rewrite;
mod size;

use spectro_io::{MemShelf, MemSink, MemSource};
use spectro_run::{Status, run};
use std::alloc::{AllocError, Global};
use std::process::Abort;

// A process that has stopped.
const STOPPED: &str = "des (0, 0, 1)\n";

// After a, either b or c, as the first step decides.
const EARLY_CHOICE: &str = "des (0, 4, 4)\n(0, a, 1)\n(0, a, 2)\n(1, b, 3)\n(2, c, 3)\n";

// After a, both b and c.
const LATE_CHOICE: &str = "des (0, 3, 3)\n(0, a, 1)\n(1, b, 2)\n(1, c, 2)\n";

// One a.
const ONE_STEP: &str = "des (0, 1, 2)\n(0, a, 1)\n";

// One a, which stands twice.
const REPEATED: &str = "des (0,2,2)\n(0,a,1)\n(0,\"a\",1)\n";

// Either b or c.
const CHOICE: &str = "des (0,2,2)\n(0,b,1)\n(0,c,1)\n";

// Two places, first in and first out.
const QUEUE: &str = "des (0, 12, 7)\n\
    (0, \"PUT !0\", 1)\n\
    (0, \"PUT !1\", 2)\n\
    (1, \"PUT !0\", 3)\n\
    (1, \"PUT !1\", 4)\n\
    (1, \"GET !0\", 0)\n\
    (2, \"PUT !0\", 5)\n\
    (2, \"PUT !1\", 6)\n\
    (2, \"GET !1\", 0)\n\
    (3, \"GET !0\", 1)\n\
    (4, \"GET !0\", 2)\n\
    (5, \"GET !1\", 1)\n\
    (6, \"GET !1\", 2)\n";

// Two places that keep no order.
const BAG: &str = "des (0, 12, 6)\n\
    (0, \"PUT !0\", 1)\n\
    (0, \"PUT !1\", 2)\n\
    (1, \"PUT !0\", 3)\n\
    (1, \"PUT !1\", 4)\n\
    (1, \"GET !0\", 0)\n\
    (2, \"PUT !0\", 4)\n\
    (2, \"PUT !1\", 5)\n\
    (2, \"GET !1\", 0)\n\
    (3, \"GET !0\", 1)\n\
    (4, \"GET !0\", 2)\n\
    (4, \"GET !1\", 1)\n\
    (5, \"GET !1\", 2)\n";

// The second line is cut off.
const CUT: &str = "des (0,1,2)\n(0,a";

// The first line is no header.
const HEADLESS: &str = "states 1\ndes (0, 0, 1)\n";

// The label a costs nothing, and b costs five.
const WEIGHTS: &str = "0 \"a\"\n5 \"b\"\n";

// The second line weighs a label again.
const TWICE: &str = "1 \"a\"\n2 \"a\"\n";

// The label a costs seven.
const SEVEN: &str = "7 \"a\"\n";

// Traces of two steps, and bisimulation.
const TWO: &str = "two-step-traces 2 1 0 0 0 0\nbisimulation * * * * * *\n";

// The bound of the second line has two parts.
const SHORT: &str = "traces * 1 0 0 0 0\nx 1 1\n";

const FILES: [(&str, &str); 15] = [
    ("stopped.aut", STOPPED),
    ("step.aut", ONE_STEP),
    ("early.aut", EARLY_CHOICE),
    ("late.aut", LATE_CHOICE),
    ("cut.aut", CUT),
    ("headless.aut", HEADLESS),
    ("weights.txt", WEIGHTS),
    ("twice.txt", TWICE),
    ("repeated.aut", REPEATED),
    ("choice.aut", CHOICE),
    ("queue.aut", QUEUE),
    ("bag.aut", BAG),
    ("seven.txt", SEVEN),
    ("two.txt", TWO),
    ("short.txt", SHORT),
];

// How a run ended, and what it wrote.
#[derive(Drop)]
struct Run {
    status: Status,
    out: MemSink,
    err: MemSink,
}

// The words between blanks.
fn words_of(alloc: Global, line: &str) -> Result<Vec<String>, AllocError> {
    let mut words = Vec::new(alloc);
    for word in line.split(' ') {
        words.push(String::from_str(alloc, word)?)?;
    }
    Ok(words)
}

// The files on a shelf that gives seven bytes a read, of whose calls one fails.
fn shelf_with(alloc: Global, files: &[(&str, &str)], fails: u64) -> Result<MemShelf, AllocError> {
    let mut shelf = MemShelf::new(alloc, 7, &[fails])?;
    for (name, text) in files {
        shelf.put(name, text.as_bytes())?;
    }
    Ok(shelf)
}

// A run over the files, with outputs that take one byte a call. One call of the shelf, one of the output and one of the
// error output fails, and none where its number is 0.
fn run_words(alloc: Global, line: &str, fails: [u64; 3]) -> Result<Run, AllocError> {
    let [shelf_fails, out_fails, err_fails] = fails;
    let words = words_of(alloc, line)?;
    let mut shelf = shelf_with(alloc, &FILES, shelf_fails)?;
    let mut input = MemSource::new(alloc, b"", 1, &[])?;
    let mut out = MemSink::new(alloc, 4000, 1, &[out_fails])?;
    let mut err = MemSink::new(alloc, 1000, 1, &[err_fails])?;
    let status = run(
        alloc,
        words.as_slice(),
        &mut shelf,
        &mut input,
        &mut out,
        &mut err,
    );
    Ok(Run { status, out, err })
}

fn tells(rt: &impl Abort, line: &str, run: &Run, code: u8, output: &str, message: &str) {
    assert_eq!(rt; run.status.code(), code, "{line}");
    assert_eq!(rt; run.out.written(), output.as_bytes(), "{line}");
    assert_eq!(rt; run.err.written(), message.as_bytes(), "{line}");
}

// Where no call fails, the words are done, and write this.
fn writes(rt: &impl Abort, alloc: Global, line: &str, output: &str) -> Result<(), AllocError> {
    let run = run_words(alloc, line, [0, 0, 0])?;
    tells(rt, line, &run, 0, output, "");
    Ok(())
}

// Where no call fails, the words are refused.
fn refuses(
    rt: &impl Abort,
    alloc: Global,
    line: &str,
    code: u8,
    message: &str,
) -> Result<(), AllocError> {
    let run = run_words(alloc, line, [0, 0, 0])?;
    tells(rt, line, &run, code, "", message);
    Ok(())
}
