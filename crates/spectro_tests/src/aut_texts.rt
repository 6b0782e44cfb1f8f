use spectro_aut::{AutError, AutFault, AutKind, Feed, read, write};
use spectro_io::{Failed, MemSink};
use spectro_lts::{Draft, Lts};
use std::alloc::{AllocError, Global};
use std::process::Abort;
use std::test::Fail;

// Texts of systems, and what is written of these.
const TEXTS: [(&[u8], &str); 4] = [
    (b"des (0,0,1)", "des (0, 0, 1)\n"),
    (
        b"des (0,1,2)\n(0, \"PUT (1, \"x\")\", 1)\n",
        "des (0, 1, 2)\n(0, \"PUT (1, \"x\")\", 1)\n",
    ),
    (
        b"des (0,1,2)\n(0, \"\", 1)\n",
        "des (0, 1, 2)\n(0, \"\", 1)\n",
    ),
    (
        b"\t\n des \t( 01 ,00000000000000000000003,\t2 ) \r\n \n(1,\" a\r\",0)\n( 0 ,\ta, 1\t)\n(1,\"a\",1)\r\n\t",
        "des (1, 3, 2)\n(1, \" a\r\", 0)\n(0, \"a\", 1)\n(1, \"a\", 1)\n",
    ),
];

// Texts of no system, with the line of the first fault, and the fault.
const FAULTY: [(&[u8], u64, AutKind); 24] = [
    (b"", 1, AutKind::NoHeader),
    (b"\n \r\n", 3, AutKind::NoHeader),
    (b"(0,a,1)", 1, AutKind::NoHeader),
    (b"DES (0,0,1)", 1, AutKind::NoHeader),
    (b"des (0,0,1,)", 1, AutKind::BadHeader),
    (b"des (0,-1,1)", 1, AutKind::BadHeader),
    (b"dest (0,0,1)", 1, AutKind::BadHeader),
    (
        b"des (0,0,100000000000000000000000000000001)",
        1,
        AutKind::TooManyStates,
    ),
    (b"des (0,1000001,65537)", 1, AutKind::TooManyStates),
    (b"des (0,1000001,0)", 1, AutKind::TooManyTransitions),
    (b"des (0,0,0)", 1, AutKind::NoState),
    (b"des (3,0,3)", 1, AutKind::BadInitial),
    (b"des (0,1,2)\n(0,1)\n", 2, AutKind::BadLine),
    (b"des (0,1,2)\n(0,a,1,)\n", 2, AutKind::BadLine),
    (b"des (0,1,2)\n\n(x,\"\"\",1)\n", 3, AutKind::BadLine),
    (b"des (0,1,2)\n(0, PUT \"x\", 1)\n", 2, AutKind::BadLabel),
    (b"des (0,1,2)\n(0,\",1)\n", 2, AutKind::BadLabel),
    (b"des (0,1,2)\n(7,\"a\"b,7)\n", 2, AutKind::BadLabel),
    (b"des (0,1,2)\n(0,a,2)\n", 2, AutKind::StateRange),
    (
        b"des (0,1,2)\n(18446744073709551616,a,0)\n",
        2,
        AutKind::StateRange,
    ),
    (
        b"des (0,3,2)\n(0,a,1)\n(0,b,1)\n(0,c,1)\n(0,d,1)\n",
        5,
        AutKind::ExtraLine,
    ),
    (
        b"des (0,3,2)\n(0,a,1)\n(0,b,1)\n",
        4,
        AutKind::MissingLines { said: 3, found: 2 },
    ),
    (
        b"des (0,1,2)\n \n",
        3,
        AutKind::MissingLines { said: 1, found: 0 },
    ),
    (b"des (0,1,2)\n\xFF\n(0,a,2)\n", 2, AutKind::NotText),
];

const HEADER: (&[u8], usize) = (b"des (0,1,1)\n", 1);

const STEP: (&[u8], usize) = (b"(0,a,0)", 1);

// Texts at a limit, in parts that are repeated, with the line of the first fault and the fault where there is one.
const AT_LIMITS: [(&str, &[(&[u8], usize)], Option<(u64, AutKind)>); 9] = [
    (
        "a label of 8,192 bytes",
        &[HEADER, (b"(0,", 1), (b"x", 8192), (b",0)", 1)],
        None,
    ),
    (
        "a label of 8,193 bytes",
        &[HEADER, (b"(0,", 1), (b"x", 8193), (b",0)", 1)],
        Some((2, AutKind::LabelTooLong)),
    ),
    (
        "a line of 32,768 bytes",
        &[HEADER, (b" ", 30_000), STEP, (b"\t", 2761)],
        None,
    ),
    (
        "a line of 32,768 bytes before CR LF",
        &[HEADER, (b" ", 30_000), STEP, (b"\t", 2761), (b"\r\n", 1)],
        None,
    ),
    (
        "a line of 32,769 bytes",
        &[HEADER, (b" ", 30_000), STEP, (b"\t", 2762), (b"\n", 1)],
        Some((2, AutKind::TooLong)),
    ),
    (
        "a line of 32,769 bytes before CR LF",
        &[HEADER, (b" ", 30_000), STEP, (b"\t", 2762), (b"\r\n", 1)],
        Some((2, AutKind::TooLong)),
    ),
    (
        "a line of 32,769 bytes that no line end follows",
        &[HEADER, (b" ", 32_762), STEP],
        Some((2, AutKind::TooLong)),
    ),
    (
        "a line of 32,768 bytes that is not UTF-8",
        &[HEADER, (b"\xFF", 1), (b" ", 32_767), (b"\n", 1)],
        Some((2, AutKind::NotText)),
    ),
    (
        "a line of 32,769 bytes that is not UTF-8",
        &[HEADER, (b"\xFF", 1), (b" ", 32_768), (b"\n", 1)],
        Some((2, AutKind::TooLong)),
    ),
];

// How a text comes: whole, or in pieces of so many bytes.
const WAYS: [Option<usize>; 3] = [None, Some(1), Some(7)];

// The system of the text, which comes so.
fn read_by(alloc: Global, text: &[u8], way: Option<usize>) -> Result<Lts, AutError> {
    let Some(size) = way else {
        return read(alloc, text);
    };
    let mut feed = Feed::new(alloc)?;
    for piece in text.chunks(size.max(1)) {
        feed.feed(piece)?;
    }
    feed.finish()
}

// The fault that is told, if it is read as no system.
fn fault_of(outcome: Result<Lts, AutError>) -> Result<Option<AutFault>, AllocError> {
    match outcome {
        Ok(_) => Ok(None),
        Err(AutError::Text(fault)) => Ok(Some(fault)),
        Err(AutError::OutOfMemory) => Err(AllocError),
    }
}

fn written(alloc: Global, text: &[u8], way: Option<usize>) -> Result<MemSink, AutError> {
    let lts = read_by(alloc, text, way)?;
    let mut out = MemSink::new(alloc, 200, 200, &[])?;
    let _ = write(&lts, &mut out);
    Ok(out)
}

fn told(fault: Option<(u64, AutKind)>) -> Option<AutFault> {
    let (line, kind) = fault?;
    Some(AutFault { line, kind })
}

// The case has the fault that is expected, or none.
fn is_told(rt: &impl Abort, case: &str, fault: Option<AutFault>, expected: Option<(u64, AutKind)>) {
    assert_eq!(rt; fault, told(expected), "{case}");
}

// The parts, each so often.
fn repeated(alloc: Global, parts: &[(&[u8], usize)]) -> Result<Vec<u8>, AllocError> {
    let mut text = Vec::new(alloc);
    for (part, times) in parts {
        for _ in 0..*times {
            text.extend_from_slice(part)?;
        }
    }
    Ok(text)
}

// The fault of the text of the parts, which comes so.
fn fault_of_parts(
    alloc: Global,
    parts: &[(&[u8], usize)],
    way: Option<usize>,
) -> Result<Option<AutFault>, AllocError> {
    let text = repeated(alloc, parts)?;
    fault_of(read_by(alloc, &text, way))
}

// A text of so many transitions, each under a label of its own.
fn text_with_labels(alloc: Global, labels: u32) -> Result<String, Fail> {
    let mut text = format!(in alloc; "des (0,{labels},1)\n")?;
    for label in 0..labels {
        writeln!(text, "(0,{label},0)")?;
    }
    Ok(text)
}

fn fault_of_labels(alloc: Global, labels: u32) -> Result<Option<AutFault>, Fail> {
    let text = text_with_labels(alloc, labels)?;
    Ok(fault_of(read(alloc, text.as_bytes()))?)
}

// A line of so many blanks, and its LF.
fn blank_line(alloc: Global, blanks: usize) -> Result<Vec<u8>, AllocError> {
    let mut line = vec![in alloc; b' '; blanks]?;
    line.push(b'\n')?;
    Ok(line)
}

// Feeds so many lines of so many blanks.
fn feed_blanks(
    alloc: Global,
    feed: &mut Feed,
    lines: u32,
    blanks: usize,
) -> Result<(), AllocError> {
    let line = blank_line(alloc, blanks)?;
    for _ in 0..lines {
        feed.feed(&line)?;
    }
    Ok(())
}

// Feeds as many bytes as a text may have: a header, and 2,048 lines of blanks.
fn feed_full(alloc: Global, feed: &mut Feed) -> Result<(), AllocError> {
    feed.feed(b"des (0, 0, 1)\n")?;
    feed_blanks(alloc, feed, 2047, 32_767)?;
    feed_blanks(alloc, feed, 1, 32_753)
}

// The system of these, with more after them.
fn read_full(alloc: Global, more: &[u8]) -> Result<Lts, AutError> {
    let mut feed = Feed::new(alloc)?;
    feed_full(alloc, &mut feed)?;
    feed.feed(more)?;
    feed.finish()
}

// What is written of the system of the text, which comes so.
fn is_written_as(
    rt: &impl Abort,
    alloc: Global,
    text: &[u8],
    way: Option<usize>,
    expected: &str,
) -> Result<(), Fail> {
    let out = written(alloc, text, way)?;
    assert_eq!(rt; out.written(), expected.as_bytes(), "{way:?}: {expected}");
    Ok(())
}

#[test]
fn reads_whole_texts_and_pieces_alike(rt: HostRuntime) -> Result<(), Fail> {
    for (text, expected) in TEXTS {
        for way in WAYS {
            is_written_as(&rt, rt.alloc(), text, way, expected)?;
        }
    }
    Ok(())
}

#[test]
fn tells_the_first_faulty_line(rt: HostRuntime) -> Result<(), Fail> {
    for (text, line, kind) in FAULTY {
        let fault = fault_of(read(rt.alloc(), text))?;
        assert_eq!(rt; fault, Some(AutFault { line, kind }), "{text:?}");
    }
    Ok(())
}

#[test]
fn keeps_the_limits_of_labels_and_lines(rt: HostRuntime) -> Result<(), Fail> {
    for (case, parts, expected) in AT_LIMITS {
        let fault = fault_of_parts(rt.alloc(), parts, None)?;
        is_told(&rt, case, fault, expected);
    }
    Ok(())
}

#[test]
fn keeps_the_limit_of_a_line_that_comes_in_pieces(rt: HostRuntime) -> Result<(), Fail> {
    let fault = fault_of_parts(rt.alloc(), &[HEADER, (b" ", 32_769)], Some(1000))?;
    is_told(&rt, "in pieces", fault, Some((2, AutKind::TooLong)));
    Ok(())
}

#[test]
fn reads_65_536_labels_and_no_more(rt: HostRuntime) -> Result<(), Fail> {
    let too_many = (65_538, AutKind::TooManyLabels);
    for (case, labels, expected) in [
        ("65,536 labels", 65_536, None),
        ("65,537 labels", 65_537, Some(too_many)),
    ] {
        let fault = fault_of_labels(rt.alloc(), labels)?;
        is_told(&rt, case, fault, expected);
    }
    Ok(())
}

#[test]
fn reads_67_108_864_bytes_and_no_more(rt: HostRuntime) -> Result<(), Fail> {
    let too_long = (2050, AutKind::TooLong);
    for (case, more, expected) in [
        ("67,108,864 bytes", b"".as_slice(), None),
        ("67,108,865 bytes", b"\n", Some(too_long)),
    ] {
        let fault = fault_of(read_full(rt.alloc(), more))?;
        is_told(&rt, case, fault, expected);
    }
    Ok(())
}

#[test]
fn says_the_line_and_the_fault(rt: HostRuntime) -> Result<(), Fail> {
    let missing = AutFault {
        line: 3,
        kind: AutKind::MissingLines { said: 3, found: 1 },
    };
    let message = format!(in rt.alloc(); "{missing}")?;
    assert_eq!(rt; message.as_str(), "line 3: MissingLines said 3 found 1");
    Ok(())
}

// What is written where the second call fails.
fn is_cut(rt: &impl Abort, alloc: Global, lts: &Lts) -> Result<(), Fail> {
    let mut sink = MemSink::new(alloc, 100, 5, &[2])?;
    assert_eq!(rt; write(lts, &mut sink), Err(Failed));
    assert_eq!(rt; sink.written(), b"des (".as_slice());
    Ok(())
}

#[test]
fn a_write_that_fails_leaves_a_proper_prefix(rt: HostRuntime) -> Result<(), Fail> {
    let lts = Draft::new(rt.alloc(), 12, 11)?.finish()?;
    is_cut(&rt, rt.alloc(), &lts)
}
