use spectro_io::{Batch, MemSink};
use std::alloc::Global;
use std::process::Abort;
use std::test::Fail;

// How many bytes are out after a piece of so many.
fn puts(
    rt: &impl Abort,
    alloc: Global,
    batch: &mut Batch,
    sink: &mut MemSink,
    len: usize,
    out: usize,
) -> Result<(), Fail> {
    let piece = vec![in alloc; b'x'; len]?;
    assert!(rt; batch.put(&piece, sink).is_ok());
    assert_eq!(rt; sink.written().len(), out);
    Ok(())
}

#[test]
fn pieces_are_held_while_there_is_room(rt: HostRuntime) -> Result<(), Fail> {
    let mut sink = MemSink::new(rt.alloc(), 20_000, 4_000, &[])?;
    let mut batch = Batch::new();
    for (len, out) in [(5_000, 0), (3_192, 0), (1, 8_192), (9_000, 17_193)] {
        puts(&rt, rt.alloc(), &mut batch, &mut sink, len, out)?;
    }
    Ok(())
}
