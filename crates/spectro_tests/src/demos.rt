ghost use Rattle.std.specs.Prelude.{◌≤◌};

use crate::systems::{assert_labels, assert_steps};
use spectro_demo::{MAX_NUMBER, demo_left, demo_right};
use spectro_lts::Lts;
use std::alloc::{AllocError, Global};
use std::process::Abort;

#[test]
fn chooses_last_on_the_left(rt: HostRuntime) -> Result<(), AllocError> {
    let lts = demo_left(rt.alloc(), 3)?;
    let steps = [(0, 0, 1), (1, 0, 2), (2, 0, 3), (3, 1, 4), (3, 2, 4)];
    assert_steps(&rt, &lts, 5, 0, &steps);
    assert_labels(&rt, &lts, &["a", "b", "c"]);
    Ok(())
}

#[test]
fn chooses_first_on_the_right(rt: HostRuntime) -> Result<(), AllocError> {
    let lts = demo_right(rt.alloc(), 3)?;
    let steps = [
        (0, 0, 1),
        (0, 0, 4),
        (1, 0, 2),
        (4, 0, 5),
        (2, 0, 3),
        (5, 0, 6),
        (3, 1, 7),
        (6, 2, 7),
    ];
    assert_steps(&rt, &lts, 8, 0, &steps);
    assert_labels(&rt, &lts, &["a", "b", "c"]);
    Ok(())
}

#[test]
fn has_one_step_before_the_choice(rt: HostRuntime) -> Result<(), AllocError> {
    let left = demo_left(rt.alloc(), 1)?;
    assert_steps(&rt, &left, 3, 0, &[(0, 0, 1), (1, 1, 2), (1, 2, 2)]);
    let right = demo_right(rt.alloc(), 1)?;
    assert_steps(
        &rt,
        &right,
        4,
        0,
        &[(0, 0, 1), (0, 0, 2), (1, 1, 3), (2, 2, 3)],
    );
    Ok(())
}

// There are so many states, and as many steps.
fn assert_size(rt: &impl Abort, lts: &Lts, size: u32) {
    assert_eq!(rt; (lts.states(), lts.step_count()), (size, size));
}

// The left system, the right one and both side by side are so large.
fn assert_sizes(rt: &impl Abort, alloc: Global, n: u32, sizes: [u32; 3]) -> Result<(), AllocError>
    requires some { 1 ≤ n }
    requires few { n ≤ MAX_NUMBER }
{
    let left = demo_left(alloc, n)?;
    let right = demo_right(alloc, n)?;
    let both = Lts::join(alloc, &left, &right)?;
    let [left_size, right_size, size] = sizes;
    assert_size(rt, &left, left_size);
    assert_size(rt, &right, right_size);
    assert_size(rt, &both, size);
    Ok(())
}

#[test]
fn has_as_many_steps_as_states(rt: HostRuntime) -> Result<(), AllocError> {
    assert_sizes(&rt, rt.alloc(), 1, [3, 4, 7])?;
    assert_sizes(&rt, rt.alloc(), 200, [202, 402, 604])?;
    assert_sizes(&rt, rt.alloc(), 2_000, [2_002, 4_002, 6_004])?;
    assert_sizes(&rt, rt.alloc(), 9_000, [9_002, 18_002, 27_004])
}
