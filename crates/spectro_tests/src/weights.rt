use spectro_weights::Weights;
use std::alloc::{AllocError, Global};
use std::process::Abort;
use std::test::Fail;

fn set_again(alloc: Global) -> Result<Weights, AllocError> {
    let mut weights = Weights::new(alloc);
    weights.set("tea", 0)?;
    weights.set("coin", 255)?;
    weights.set("tea", 3)?;
    Ok(weights)
}

// The labels weigh so much.
pub(crate) fn assert_weights(rt: &impl Abort, weights: &Weights, want: &[(&str, u8)]) {
    for (label, weight) in want {
        assert_eq!(rt; weights.of(label), *weight, "{label}");
    }
}

#[test]
fn weighs_labels_as_they_were_set_last(rt: HostRuntime) -> Result<(), Fail> {
    let weights = set_again(rt.alloc())?;
    assert_weights(&rt, &weights, &[("tea", 3), ("coin", 255), ("coi", 1)]);
    Ok(())
}
