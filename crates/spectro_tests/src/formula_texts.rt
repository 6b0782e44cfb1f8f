use spectro_hmltext::{ParseError, TextFault, TextKind, parse, print_sheet};
use spectro_io::MemSink;
use std::alloc::{AllocError, Global};
use std::process::Abort;
use std::test::Fail;

// Texts of formulas, and the lines of their sheets.
const SHEETS: [(&str, &str); 4] = [
    ("\t tt ", "0 all\n"),
    (
        "and { <\"put\"> tt , not<\"get\">tt }",
        "0 all\n1 see \"put\" 0\n2 all\n3 see \"get\" 2\n4 all +1 -3\n",
    ),
    (" < \"\\\"é\\\\\" > tt ", "0 all\n1 see \"\\\"é\\\\\" 0\n"),
    (
        "and{not and{tt,tt}}",
        "0 all\n1 all\n2 all +0 +1\n3 all -2\n",
    ),
];

// Texts without a formula, with the place and the kind of the first fault.
const FAULTY: [(&str, u32, TextKind); 16] = [
    ("", 0, TextKind::UnexpectedEnd),
    (" \t", 2, TextKind::UnexpectedEnd),
    ("nottt", 0, TextKind::Unexpected),
    ("not tt", 0, TextKind::Unexpected),
    (" é", 1, TextKind::Unexpected),
    ("tt\n", 2, TextKind::Unexpected),
    ("tt tt", 3, TextKind::Unexpected),
    ("<\"a\\", 4, TextKind::UnexpectedEnd),
    ("<\"a\\x\">tt", 3, TextKind::BadLabel),
    ("<\"a\n\">tt", 3, TextKind::BadLabel),
    ("<\"a\" \"", 5, TextKind::Unexpected),
    ("and tt", 4, TextKind::Unexpected),
    ("and{}", 4, TextKind::Unexpected),
    ("and{tt,}", 7, TextKind::Unexpected),
    ("and{tt tt}", 7, TextKind::Unexpected),
    ("and{not not tt}", 8, TextKind::Unexpected),
];

// Texts at a limit, in parts that are repeated, with the place and the kind of the fault where there is one.
const AT_LIMITS: [(&str, &[(&str, usize)], Option<(u32, TextKind)>); 8] = [
    ("256 formulas deep", &[("<\"\">", 255), ("tt", 1)], None),
    (
        "257 formulas deep",
        &[("<\"\">", 256), ("tt", 1)],
        Some((1024, TextKind::TooDeep)),
    ),
    (
        "a label of 8,192 bytes",
        &[("<\"", 1), ("x", 8190), ("é\">tt", 1)],
        None,
    ),
    (
        "a label of 8,193 bytes",
        &[("<\"", 1), ("x", 8191), ("é\">tt", 1)],
        Some((8193, TextKind::BadLabel)),
    ),
    (
        "a label of 8,192 bytes with an escape",
        &[("<\"", 1), ("x", 8191), ("\\\"\">tt", 1)],
        None,
    ),
    (
        "a label of 8,193 bytes with an escape",
        &[("<\"", 1), ("x", 8192), ("\\\"\">tt", 1)],
        Some((8194, TextKind::BadLabel)),
    ),
    ("65,536 bytes", &[("tt", 1), (" ", 65_534)], None),
    (
        "65,537 bytes",
        &[("tt", 1), (" ", 65_535)],
        Some((65_536, TextKind::TooLong)),
    ),
];

// The lines of the sheet that is read of the text.
fn sheet_lines(alloc: Global, text: &str) -> Result<MemSink, ParseError> {
    let parsed = parse(alloc, text)?;
    let mut lines = MemSink::new(alloc, 200, 200, &[])?;
    let _ = print_sheet(&parsed.sheet, &mut lines);
    Ok(lines)
}

// The fault of the text, if it has one.
fn fault_of(alloc: Global, text: &str) -> Result<Option<TextFault>, AllocError> {
    match parse(alloc, text) {
        Ok(_) => Ok(None),
        Err(ParseError::Text(fault)) => Ok(Some(fault)),
        Err(ParseError::OutOfMemory) => Err(AllocError),
    }
}

fn fault_of_parts(alloc: Global, parts: &[(&str, usize)]) -> Result<Option<TextFault>, AllocError> {
    let text = repeated(alloc, parts)?;
    fault_of(alloc, &text)
}

fn told(fault: Option<(u32, TextKind)>) -> Option<TextFault> {
    let (at, kind) = fault?;
    Some(TextFault { at, kind })
}

// The case has the fault that is expected, or none.
fn is_told(
    rt: &impl Abort,
    case: &str,
    fault: Option<TextFault>,
    expected: Option<(u32, TextKind)>,
) {
    assert_eq!(rt; fault, told(expected), "{case:?}");
}

// The parts, each so often.
fn repeated(alloc: Global, parts: &[(&str, usize)]) -> Result<String, AllocError> {
    let mut text = String::new(alloc);
    for (part, times) in parts {
        for _ in 0..*times {
            text.push_str(part)?;
        }
    }
    Ok(text)
}

fn has_lines(rt: &impl Abort, alloc: Global, text: &str, lines: &str) -> Result<(), Fail> {
    let sheet = sheet_lines(alloc, text)?;
    assert_eq!(rt; sheet.written(), lines.as_bytes(), "{text:?}");
    Ok(())
}

#[test]
fn numbers_inner_formulas_first(rt: HostRuntime) -> Result<(), Fail> {
    for (text, lines) in SHEETS {
        has_lines(&rt, rt.alloc(), text, lines)?;
    }
    Ok(())
}

#[test]
fn tells_the_first_fault(rt: HostRuntime) -> Result<(), Fail> {
    for (text, at, kind) in FAULTY {
        let fault = fault_of(rt.alloc(), text)?;
        is_told(&rt, text, fault, Some((at, kind)));
    }
    Ok(())
}

#[test]
fn keeps_the_limits(rt: HostRuntime) -> Result<(), Fail> {
    for (case, parts, expected) in AT_LIMITS {
        let fault = fault_of_parts(rt.alloc(), parts)?;
        is_told(&rt, case, fault, expected);
    }
    Ok(())
}
