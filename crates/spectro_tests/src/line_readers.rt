use spectro_io::{Failed, Got, LineReader, MemSource};
use std::process::Abort;
use std::test::Fail;

// What the reader answers next, and which line it keeps then.
fn answers(
    rt: &impl Abort,
    reader: &mut LineReader,
    source: &mut MemSource,
    answer: Result<Got, Failed>,
    line: &str,
) {
    assert!(rt; reader.next(source) == answer);
    assert_eq!(rt; reader.line(), line.as_bytes());
}

#[test]
fn a_failure_in_a_line_loses_nothing(rt: HostRuntime) -> Result<(), Fail> {
    let mut source = MemSource::new(rt.alloc(), b"abcd\r\nef", 2, &[2, 4])?;
    let mut reader = LineReader::new(rt.alloc())?;
    for (answer, line) in [
        (Err(Failed), ""),
        (Err(Failed), ""),
        (Ok(Got::Line), "abcd"),
        (Ok(Got::Line), "ef"),
        (Ok(Got::End), "ef"),
    ] {
        answers(&rt, &mut reader, &mut source, answer, line);
    }
    Ok(())
}
