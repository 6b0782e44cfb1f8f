use spectro_io::{
    Failed, MemShelf, MemSink, MemSource, ReadError, Shelf, Source, read_all, write_whole,
};
use std::alloc::Global;
use std::process::Abort;
use std::test::Fail;

// What is left of the source.
fn leaves<S: Source>(
    rt: &impl Abort,
    alloc: Global,
    source: &mut S,
    expected: &[u8],
) -> Result<(), Fail> {
    let rest = read_all(alloc, source).ok().ok_or("no bytes")?;
    assert_eq!(rt; rest.as_slice(), expected);
    Ok(())
}

#[test]
fn reads_go_on_after_a_planned_fault(rt: HostRuntime) -> Result<(), Fail> {
    let mut source = MemSource::new(rt.alloc(), b"abcde", 2, &[2])?;
    let failed = read_all(rt.alloc(), &mut source).err();
    assert!(rt; failed == Some(ReadError::Failed));
    leaves(&rt, rt.alloc(), &mut source, b"cde")
}

fn shelf_put_twice(alloc: Global) -> Result<MemShelf, Fail> {
    let mut shelf = MemShelf::new(alloc, 3, &[])?;
    shelf.put("name", b"old")?;
    shelf.put("name", b"new text")?;
    Ok(shelf)
}

#[test]
fn a_name_holds_the_text_that_was_put_last(rt: HostRuntime) -> Result<(), Fail> {
    let mut shelf = shelf_put_twice(rt.alloc())?;
    assert!(rt; shelf.open("name") == Ok(true));
    leaves(&rt, rt.alloc(), &mut shelf, b"new text")
}

// What is written of the bytes, where there is room for some of them.
fn takes(rt: &impl Abort, sink: &mut MemSink, bytes: &[u8], expected: &[u8]) {
    assert!(rt; write_whole(sink, bytes) == Err(Failed));
    assert_eq!(rt; sink.written(), expected);
}

#[test]
fn a_sink_takes_what_its_room_allows(rt: HostRuntime) -> Result<(), Fail> {
    let mut sink = MemSink::new(rt.alloc(), 3, 2, &[])?;
    takes(&rt, &mut sink, b"abcd", b"abc");
    Ok(())
}
