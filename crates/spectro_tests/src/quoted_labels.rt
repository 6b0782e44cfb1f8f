use spectro_hmltext::write_label;
use spectro_io::MemSink;
use std::alloc::Global;
use std::process::Abort;
use std::test::Fail;

fn is_written(rt: &impl Abort, alloc: Global, label: &str, expected: &str) -> Result<(), Fail> {
    let mut sink = MemSink::new(alloc, 100, 100, &[])?;
    assert!(rt; write_label(label, &mut sink).is_ok(), "{label:?}");
    assert_eq!(rt; sink.written(), expected.as_bytes(), "{label:?}");
    Ok(())
}

#[test]
fn writes_a_backslash_before_quotes_and_backslashes(rt: HostRuntime) -> Result<(), Fail> {
    for (label, expected) in [
        ("", "\"\""),
        ("a", "\"a\""),
        ("a\"b\\", "\"a\\\"b\\\\\""),
        ("PUT !é", "\"PUT !é\""),
    ] {
        is_written(&rt, rt.alloc(), label, expected)?;
    }
    Ok(())
}
