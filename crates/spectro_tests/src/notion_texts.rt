use crate::notions::assert_notions;
use spectro_notions::{NotionError, NotionFault, NotionKind, read_notions};
use std::alloc::{AllocError, Global};
use std::test::Fail;

const TWO: &[u8] = b"two-step-traces 2 1 0 0 0 0\nbisimulation * * * * * *";

// One notion, with blanks wherever they may stand.
const SPACED: &[u8] = b"\t \r\n x-9\t004294967295 *  0 00 0\t 0 \r\n\n";

// Texts without a table, with the line and the kind of the first fault.
const FAULTY: [(&[u8], u64, NotionKind); 15] = [
    (b"", 1, NotionKind::NoNotion),
    (b" \n\t\r\n", 3, NotionKind::NoNotion),
    (b"x 1 1", 1, NotionKind::BadLine),
    (b"x 1 1 0 0 0 0 0", 1, NotionKind::BadLine),
    (b"X 1 1 0 0 0 0", 1, NotionKind::BadLine),
    (b"x_y 1 1 0 0 0 0", 1, NotionKind::BadLine),
    (b"x 1 1 0 0 0 **", 1, NotionKind::BadLine),
    (b"x 1 1 0 0 0 -1", 1, NotionKind::BadLine),
    (b"x 4294967296 1 0 0 0", 1, NotionKind::BadLine),
    (b"x 4294967296 1 0 0 0 0", 1, NotionKind::BadNumber),
    (
        b"x 1 1 0 0 0 18446744073709551616",
        1,
        NotionKind::BadNumber,
    ),
    (b"x 1 1 0 0 0 0\n\nx * * * * * *", 3, NotionKind::Repeated),
    (
        b"x 1 1 0 0 0 0\nx 4294967296 1 0 0 0 0",
        2,
        NotionKind::BadNumber,
    ),
    (b"x 1 1 0 0 0 0\n\xff", 2, NotionKind::NotText),
    (
        b"0123456789abcdef0123456789abcdef0123456789abcdef0123456789abcdef- * * * * * *",
        1,
        NotionKind::BadLine,
    ),
];

// The first fault of the text, if it has one.
fn fault_of(alloc: Global, text: &[u8]) -> Result<Option<NotionFault>, AllocError> {
    match read_notions(alloc, text) {
        Ok(_) => Ok(None),
        Err(NotionError::Text(fault)) => Ok(Some(fault)),
        Err(NotionError::OutOfMemory) => Err(AllocError),
    }
}

// So many notions, each with its number as its name, and then the last line.
fn numbered(alloc: Global, count: u32, last: &str) -> Result<String, AllocError> {
    let mut text = String::new(alloc);
    for k in 0..count {
        write!(text, "{k} * * * * * *\n")?;
    }
    text.push_str(last)?;
    Ok(text)
}

#[test]
fn reads_a_notion_for_each_line(rt: HostRuntime) -> Result<(), Fail> {
    let notions = read_notions(rt.alloc(), TWO)?;
    assert_notions(
        &rt,
        &notions,
        &[
            (
                0,
                "two-step-traces",
                [Some(2), Some(1), Some(0), Some(0), Some(0), Some(0)],
            ),
            (1, "bisimulation", [None, None, None, None, None, None]),
        ],
    );
    assert!(rt; notions.below(0, 1));
    Ok(())
}

#[test]
fn reads_over_blanks(rt: HostRuntime) -> Result<(), Fail> {
    let notions = read_notions(rt.alloc(), SPACED)?;
    let parts = [
        Some(4_294_967_295),
        None,
        Some(0),
        Some(0),
        Some(0),
        Some(0),
    ];
    assert_notions(&rt, &notions, &[(0, "x-9", parts)]);
    Ok(())
}

#[test]
fn tells_the_first_fault(rt: HostRuntime) -> Result<(), Fail> {
    for (text, line, kind) in FAULTY {
        let fault = fault_of(rt.alloc(), text)?;
        assert_eq!(rt; fault, Some(NotionFault { line, kind }), "{text:?}");
    }
    Ok(())
}

#[test]
fn refuses_a_65th_notion(rt: HostRuntime) -> Result<(), Fail> {
    let full = numbered(rt.alloc(), 64, "")?;
    assert_eq!(rt; fault_of(rt.alloc(), full.as_bytes())?, None);
    for (last, kind) in [
        ("0 * * * * * *", NotionKind::Repeated),
        ("x * * * * * *", NotionKind::TooMany),
    ] {
        let text = numbered(rt.alloc(), 64, last)?;
        let fault = fault_of(rt.alloc(), text.as_bytes())?;
        assert_eq!(rt; fault, Some(NotionFault { line: 65, kind }), "{last}");
    }
    Ok(())
}
