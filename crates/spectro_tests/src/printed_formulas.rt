use crate::samples::clause;
use spectro_hml::Sheet;
use spectro_hmltext::{Printed, parse, print};
use std::alloc::{AllocError, Global};
use std::process::Abort;
use std::test::Fail;

// Texts of formulas, a number of bytes, and what is printed of the formula where it has no more.
const PRINTED: [(&str, u32, Option<&str>); 5] = [
    (" tt ", 2, Some("tt")),
    ("tt", 1, None),
    (
        "and { <\"put\"> tt , not<\"get\">tt }",
        28,
        Some("and{<\"put\">tt,not <\"get\">tt}"),
    ),
    ("and { <\"put\"> tt , not<\"get\">tt }", 27, None),
    (
        "< \"\\\"é\\\\\" > and { tt }",
        17,
        Some("<\"\\\"é\\\\\">and{tt}"),
    ),
];

// The text of the last node, where it has at most so many bytes.
fn last(alloc: Global, sheet: &Sheet, max: u32) -> Result<Option<String>, AllocError> {
    if sheet.is_empty() {
        return Ok(None);
    }
    match print(alloc, sheet, sheet.len() - 1, max)? {
        Printed::Text(printed) => Ok(Some(String::from_str(alloc, printed.as_str())?)),
        Printed::TooLong => Ok(None),
    }
}

// The text of the formula that is read, where it has at most so many bytes.
fn printed(alloc: Global, text: &str, max: u32) -> Result<Option<String>, Fail> {
    let parsed = parse(alloc, text)?;
    Ok(last(alloc, &parsed.sheet, max)?)
}

fn is_printed(
    rt: &impl Abort,
    alloc: Global,
    text: &str,
    max: u32,
    expected: Option<&str>,
) -> Result<(), Fail> {
    let found = printed(alloc, text, max)?;
    assert_eq!(rt; found.as_deref(), expected, "{text:?}");
    Ok(())
}

#[test]
fn prints_what_fits_and_nothing_else(rt: HostRuntime) -> Result<(), Fail> {
    for (text, max, expected) in PRINTED {
        is_printed(&rt, rt.alloc(), text, max, expected)?;
    }
    Ok(())
}

// Puts a conjunction of the last formula and of one observation before it last.
fn double(sheet: &mut Sheet) -> Result<(), Fail> {
    let Some(below) = sheet.len().checked_sub(1) else {
        return Err(Fail::new("no node"));
    };
    sheet.push_see("a", below)?;
    sheet.push_all(&[clause(true, below), clause(true, below + 1)])?;
    Ok(())
}

// A formula whose text is as long as 2 to the 100 observations.
fn doubled(alloc: Global) -> Result<Sheet, Fail> {
    let mut sheet = Sheet::new(alloc);
    sheet.push_all(&[])?;
    for _ in 0..100 {
        double(&mut sheet)?;
    }
    Ok(sheet)
}

#[test]
fn a_formula_of_shared_parts_is_too_long_at_once(rt: HostRuntime) -> Result<(), Fail> {
    let sheet = doubled(rt.alloc())?;
    assert!(rt; last(rt.alloc(), &sheet, 4_294_967_295)?.is_none());
    Ok(())
}
