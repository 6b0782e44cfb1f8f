use spectro_hml::Sheet;
use spectro_hmltext::{NodeError, parse_node_line, print_sheet};
use spectro_io::{Failed, MemSink};
use std::alloc::{AllocError, Global};
use std::process::Abort;
use std::test::Fail;

// Lines of nodes behind two others, and the lines of the sheet with them.
const READ: [(&str, &str); 5] = [
    ("2 all", "0 all\n1 all\n2 all\n"),
    ("\t2  all\t+0 -00\t\t+01 ", "0 all\n1 all\n2 all +0 -0 +1\n"),
    (
        " \t02\tsee \t\"a\" \t 001\t ",
        "0 all\n1 all\n2 see \"a\" 1\n",
    ),
    (
        "2 see \" \\\"\\\\é\" 0",
        "0 all\n1 all\n2 see \" \\\"\\\\é\" 0\n",
    ),
    (
        "2 see \"see 0\" 000000000000000000000000000000001",
        "0 all\n1 all\n2 see \"see 0\" 1\n",
    ),
];

// Lines of no node behind two others, with the fault that is told.
const FAULTY: [(&str, NodeError); 16] = [
    ("", NodeError::BadLine),
    ("2 all 0", NodeError::BadLine),
    ("2 see \"a\"0", NodeError::BadLine),
    ("2 see \"a\\\" 0", NodeError::BadLine),
    ("2 see \"a\\x\" 0", NodeError::BadLabel),
    ("4294967296 all", NodeError::BadNumber),
    ("2 all +0 -18446744073709551616", NodeError::BadNumber),
    ("1 all", NodeError::BadNode),
    ("2 see \"a\" 2", NodeError::BadNode),
    ("2 all +0 -2", NodeError::BadNode),
    ("2 all +1 -0", NodeError::NotRising),
    ("2 all -0 +0", NodeError::NotRising),
    // two faults, of which the first is told
    ("2 see \"a\\x\" +0", NodeError::BadLine),
    ("4294967296 see \"a\\x\" 0", NodeError::BadLabel),
    ("3 all +4294967296", NodeError::BadNumber),
    ("3 all +1 +0", NodeError::BadNode),
];

fn two_nodes(alloc: Global) -> Result<Sheet, AllocError> {
    let mut sheet = Sheet::new(alloc);
    sheet.push_all(&[])?;
    sheet.push_all(&[])?;
    Ok(sheet)
}

// The lines of a sheet of two nodes, and the node of the line behind them.
fn lines_with(alloc: Global, line: &str) -> Result<MemSink, NodeError> {
    let mut sheet = two_nodes(alloc)?;
    parse_node_line(alloc, &mut sheet, line)?;
    let mut lines = MemSink::new(alloc, 200, 200, &[])?;
    let _ = print_sheet(&sheet, &mut lines);
    Ok(lines)
}

fn has_lines(rt: &impl Abort, alloc: Global, line: &str, expected: &str) -> Result<(), Fail> {
    let lines = lines_with(alloc, line)?;
    assert_eq!(rt; lines.written(), expected.as_bytes(), "{line:?}");
    Ok(())
}

#[test]
fn reads_a_line_behind_two_nodes(rt: HostRuntime) -> Result<(), Fail> {
    for (line, expected) in READ {
        has_lines(&rt, rt.alloc(), line, expected)?;
    }
    Ok(())
}

#[test]
fn tells_the_fault_that_is_tested_first(rt: HostRuntime) -> Result<(), Fail> {
    for (line, expected) in FAULTY {
        let fault = lines_with(rt.alloc(), line).err();
        assert_eq!(rt; fault, Some(expected), "{line:?}");
    }
    Ok(())
}

// What is written where the second call fails.
fn is_cut(rt: &impl Abort, sheet: &Sheet, sink: &mut MemSink) {
    assert_eq!(rt; print_sheet(sheet, sink), Err(Failed));
    assert_eq!(rt; sink.written(), b"0 all".as_slice());
}

#[test]
fn a_write_that_fails_leaves_a_proper_prefix(rt: HostRuntime) -> Result<(), Fail> {
    let sheet = two_nodes(rt.alloc())?;
    let mut sink = MemSink::new(rt.alloc(), 100, 5, &[2])?;
    is_cut(&rt, &sheet, &mut sink);
    Ok(())
}
