use crate::devices::{FileShelf, StderrSink, StdinSource, StdoutSink};
use spectro_io::{Failed, Shelf, Sink, Source};
use std::process::Abort;
use std::rt::Files;

// How the name opens, and what is read then.
fn opens<R: Files>(
    rt: &impl Abort,
    shelf: &mut FileShelf<'_, R>,
    name: &str,
    opened: Result<bool, Failed>,
    read: Result<usize, Failed>,
) {
    let mut piece = [0u8; 4];
    assert_eq!(rt; shelf.open(name), opened, "{name}");
    assert_eq!(rt; shelf.read(&mut piece), read, "{name}");
}

// A folder opens and cannot be read, a device of no bytes can.
#[test]
fn files_pass_on_what_the_system_answers(rt: HostRuntime) {
    let mut shelf = FileShelf::new(&rt);
    for (name, opened, read) in [
        ("no such file", Err(Failed), Ok(0)),
        ("/dev/null", Ok(true), Ok(0)),
        ("/", Ok(true), Err(Failed)),
    ] {
        opens(&rt, &mut shelf, name, opened, read);
    }
}

// Over the streams of whatever runs the test.
#[test]
fn streams_pass_on_what_the_system_answers(rt: HostRuntime) {
    let mut input = StdinSource::new(rt.stdin());
    assert!(rt; input.read(&mut [0u8; 4]).is_ok());
    let mut out = StdoutSink::new(rt.stdout());
    assert_eq!(rt; out.write(b"."), Ok(1));
    let mut err = StderrSink::new(rt.stderr());
    assert_eq!(rt; err.write(b"."), Ok(1));
}
