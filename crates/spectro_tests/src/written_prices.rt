use spectro_energy::{Energy, Parts};
use spectro_io::{Batch, MemSink};
use spectro_notation::put_price;
use std::alloc::Global;
use std::process::Abort;
use std::test::Fail;

const PRICE: Energy = Energy {
    parts: [2, 10, 0, 1, 4294967295, 3, 57],
};

fn is_written(rt: &impl Abort, alloc: Global, parts: Parts, text: &str) -> Result<(), Fail> {
    let mut out = MemSink::new(alloc, 100, 5, &[])?;
    let mut batch = Batch::new();
    assert!(rt; put_price(PRICE, parts, &mut batch, &mut out).is_ok());
    assert!(rt; batch.flush(&mut out).is_ok());
    assert_eq!(rt; out.written(), text.as_bytes());
    Ok(())
}

#[test]
fn writes_six_parts_or_seven(rt: HostRuntime) -> Result<(), Fail> {
    is_written(&rt, rt.alloc(), Parts::Six, "2 10 0 1 4294967295 3")?;
    is_written(&rt, rt.alloc(), Parts::Seven, "2 10 0 1 4294967295 3 57")
}
