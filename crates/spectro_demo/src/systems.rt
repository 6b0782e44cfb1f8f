ghost use Rattle.std.specs.Prelude.{◌≡◌, ◌+◌, ◌*◌, ◌≤◌, length, IfOk};
ghost use Rattle.spectro_lts.specs.Labels.{labels_of};
ghost use Rattle.spectro_demo.specs.Systems.{demo_left, demo_right, labels};

use spectro_lts::{Draft, Lts};
use std::alloc::{AllocError, Global};

/// The greatest number of a demo: how many steps lead to the end of a line. The comparison of its two systems has 189,018
/// positions, which is within the 200,000 that are allowed where no limit is asked for.
pub const MAX_NUMBER: u32 = 9_000;

/// The left system of demo `n`: a line of `n` steps under `a`, and at its end the choice between `b` and `c`.
pub fn demo_left(alloc: Global, n: u32) -> Result<Lts, AllocError>
    requires some { 1 ≤ n }
    requires few { n ≤ MAX_NUMBER }
    ensures system { IfOk result (λ lts. lts ≡ demo_left n) }
    ensures steps { IfOk result (λ lts. length lts.steps ≡ n + 2) }
    ensures labels { IfOk result (λ lts. labels_of lts.steps ≡ labels) }
{
    let mut draft = Draft::new(alloc, n + 2, 0)?;
    for s in 0..n {
        draft.add(s, "a", s + 1)?;
    }
    draft.add(n, "b", n + 1)?;
    draft.add(n, "c", n + 1)?;
    draft.finish()
}

/// The right system of demo `n`: two lines of `n` steps under `a`, of which one ends with `b` and the other with `c`. The
/// first step chooses the line.
pub fn demo_right(alloc: Global, n: u32) -> Result<Lts, AllocError>
    requires some { 1 ≤ n }
    requires few { n ≤ MAX_NUMBER }
    ensures system { IfOk result (λ lts. lts ≡ demo_right n) }
    ensures steps { IfOk result (λ lts. length lts.steps ≡ 2 * n + 2) }
    ensures labels { IfOk result (λ lts. labels_of lts.steps ≡ labels) }
{
    let mut draft = Draft::new(alloc, 2 * n + 2, 0)?;
    draft.add(0, "a", 1)?;
    draft.add(0, "a", n + 1)?;
    for s in 1..n {
        draft.add(s, "a", s + 1)?;
        draft.add(n + s, "a", n + s + 1)?;
    }
    draft.add(n, "b", 2 * n + 1)?;
    draft.add(2 * n, "c", 2 * n + 1)?;
    draft.finish()
}
