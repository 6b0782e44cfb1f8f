use crate::weights::assert_weights;
use spectro_weights::{WeightError, WeightFault, WeightKind, read_weights};
use std::alloc::{AllocError, Global};
use std::test::Fail;

// Texts without weights, with the line and the kind of the first fault.
const FAULTY: [(&[u8], u64, WeightKind); 12] = [
    (b"256 \"a\"", 1, WeightKind::BadWeight),
    (b"18446744073709551617 \"a\"", 1, WeightKind::BadWeight),
    (b"7 a", 1, WeightKind::BadLine),
    (b"7\"a\"", 1, WeightKind::BadLine),
    (b"-7 \"a\"", 1, WeightKind::BadLine),
    (b"1 \"a\"b\"", 1, WeightKind::BadLine),
    (b"1 \"a\\\"", 1, WeightKind::BadLine),
    (b"7 \"\\x\"", 1, WeightKind::BadLabel),
    (b"999 \"\\x\"", 1, WeightKind::BadLabel),
    (b"1 \"a\"\n2 \"a\"", 2, WeightKind::Repeated),
    (b"1 \"a\"\n256 \"a\"", 2, WeightKind::BadWeight),
    (b"\n1 \"a\"\r\n\xff\n7 a\n", 3, WeightKind::NotText),
];

// The first fault of the text, if it has one.
fn fault_of(alloc: Global, text: &[u8]) -> Result<Option<WeightFault>, AllocError> {
    match read_weights(alloc, text) {
        Ok(_) => Ok(None),
        Err(WeightError::Text(fault)) => Ok(Some(fault)),
        Err(WeightError::OutOfMemory) => Err(AllocError),
    }
}

// A line of 32,768 blanks before CR LF, and one of so many.
fn lines_of_blanks(alloc: Global, blanks: usize) -> Result<Vec<u8>, AllocError> {
    let mut text = vec![in alloc; b' '; 32_768]?;
    text.extend_from_slice(b"\r\n")?;
    for _ in 0..blanks {
        text.push(b' ')?;
    }
    Ok(text)
}

#[test]
fn reads_a_weight_for_each_label(rt: HostRuntime) -> Result<(), Fail> {
    let text = "\n \t\r\n007 \"tea\"\r\n\t255\t \"a\\\"\\\\é\" \n0 \"\"\r";
    let weights = read_weights(rt.alloc(), text.as_bytes())?;
    assert_weights(
        &rt,
        &weights,
        &[("tea", 7), ("a\"\\é", 255), ("", 0), ("coin", 1)],
    );
    Ok(())
}

#[test]
fn tells_the_first_fault(rt: HostRuntime) -> Result<(), Fail> {
    for (text, line, kind) in FAULTY {
        let fault = fault_of(rt.alloc(), text)?;
        assert_eq!(rt; fault, Some(WeightFault { line, kind }), "{text:?}");
    }
    Ok(())
}

#[test]
fn refuses_a_line_of_more_than_32_768_bytes(rt: HostRuntime) -> Result<(), Fail> {
    let too_long = WeightFault {
        line: 2,
        kind: WeightKind::TooLong,
    };
    for (blanks, expected) in [(32_768, None), (32_769, Some(too_long))] {
        let text = lines_of_blanks(rt.alloc(), blanks)?;
        assert_eq!(rt; fault_of(rt.alloc(), &text)?, expected, "{blanks}");
    }
    Ok(())
}
