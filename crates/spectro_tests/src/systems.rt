ghost use Rattle.std.specs.Prelude.{◌≤◌, ◌↔◌, length, IsTrue};
ghost use Rattle.spectro_lts.specs.Labels.{labels_of};

use crate::samples::system;
use spectro_lts::{Lts, Step};
use std::alloc::Global;
use std::process::Abort;
use std::test::Fail;

// There are so many states, the first, and these steps, by the numbers of their labels.
pub(crate) fn assert_steps(
    rt: &impl Abort,
    lts: &Lts,
    states: u32,
    initial: u32,
    rows: &[(u32, u32, u32)],
) {
    assert_eq!(rt; (lts.states(), lts.initial()), (states, initial));
    assert_eq!(rt; lts.step_count() as usize, rows.len());
    for (k, (from, label, to)) in rows.iter().enumerate() {
        assert_step(rt, lts, k as u32, *from, *label, *to);
    }
}

fn assert_step(rt: &impl Abort, lts: &Lts, k: u32, from: u32, label: u32, to: u32) {
    assert!(rt; k < lts.step_count());
    assert_eq!(rt; lts.step(k), Step { from, label, to }, "step {k}");
}

// The labels have these texts, and are found by them.
pub(crate) fn assert_labels(rt: &impl Abort, lts: &Lts, texts: &[&str]) {
    assert_eq!(rt; lts.label_count() as usize, texts.len());
    for (no, text) in texts.iter().enumerate() {
        assert_label(rt, lts, no as u32, text);
    }
}

fn assert_label(rt: &impl Abort, lts: &Lts, no: u32, text: &str) {
    assert!(rt; no < lts.label_count());
    assert_eq!(rt; lts.label(no), text, "label {no}");
    assert_eq!(rt; lts.label_no(text), Some(no), "label {no}");
}

// The steps from the state have these labels.
fn assert_labels_of(rt: &impl Abort, lts: &Lts, s: u32, want: &[u32]) {
    assert!(rt; s < lts.states());
    assert_eq!(rt; lts.labels_of(s), want, "state {s}");
}

// The steps from the state under the label lead there.
fn assert_successors(rt: &impl Abort, lts: &Lts, s: u32, no: u32, want: &[u32]) {
    assert!(rt; s < lts.states() && no < lts.label_count());
    assert_eq!(rt; lts.successors(s, no), want, "state {s}, label {no}");
}

// The steps from the two states under the label lead there.
fn assert_post(
    rt: &impl Abort,
    lts: &Lts,
    p: u32,
    q: u32,
    no: u32,
    want: &[u32],
) -> Result<(), Fail> {
    assert!(rt; p < lts.states() && q < lts.states() && no < lts.label_count());
    let after = lts.post(&[p, q], no)?;
    assert_eq!(rt; after.as_slice(), want, "states {p} and {q}, label {no}");
    Ok(())
}

#[test]
fn numbers_labels_where_they_first_stand(rt: HostRuntime) -> Result<(), Fail> {
    let lts = system(rt.alloc(), 3, 1, &[(1, 'b', 2), (0, 'a', 1), (2, 'b', 2)])?;
    assert_steps(&rt, &lts, 3, 1, &[(1, 0, 2), (0, 1, 1), (2, 0, 2)]);
    assert_labels(&rt, &lts, &["b", "a"]);
    Ok(())
}

// Two states with a step each way, beside three states with two steps.
fn two_beside_three(alloc: Global) -> Result<Lts, Fail> {
    let left = system(alloc, 2, 1, &[(1, 'a', 0), (0, 'b', 1)])?;
    let right = system(alloc, 3, 0, &[(0, 'c', 2), (2, 'a', 1)])?;
    join(alloc, &left, &right)
}

// The two systems side by side, where they are small.
fn join(alloc: Global, left: &Lts, right: &Lts) -> Result<Lts, Fail> {
    if !is_small(left) || !is_small(right) {
        return Err(Fail::new("no room"));
    }
    Ok(Lts::join(alloc, left, right)?)
}

fn is_small(lts: &Lts) -> bool
    ensures { IsTrue result ↔ (lts.now.states ≤ 65536) × (length lts.now.steps ≤ 1000000) × (length (labels_of lts.now.steps) ≤ 65536) }
{
    lts.states() <= 65_536 && lts.step_count() <= 1_000_000 && lts.label_count() <= 65_536
}

#[test]
fn puts_the_right_behind_the_left(rt: HostRuntime) -> Result<(), Fail> {
    let both = two_beside_three(rt.alloc())?;
    assert_steps(
        &rt,
        &both,
        5,
        1,
        &[(1, 0, 0), (0, 1, 1), (2, 2, 4), (4, 0, 3)],
    );
    assert_labels(&rt, &both, &["a", "b", "c"]);
    Ok(())
}

// "b" has number 0, "a" 1 and "B" 2. From 0 to 1 by "b" leads a step that is there twice.
#[test]
fn lists_labels_by_bytes_and_targets_rising(rt: HostRuntime) -> Result<(), Fail> {
    let steps = [
        (0, 'b', 3),
        (0, 'a', 2),
        (0, 'b', 1),
        (0, 'B', 3),
        (0, 'b', 1),
        (2, 'a', 0),
        (1, 'b', 3),
    ];
    let lts = system(rt.alloc(), 4, 0, &steps)?;
    assert_table(&rt, &lts)
}

fn assert_table(rt: &impl Abort, lts: &Lts) -> Result<(), Fail> {
    assert_labels(rt, lts, &["b", "a", "B"]);
    assert_labels_of(rt, lts, 0, &[2, 1, 0]);
    assert_labels_of(rt, lts, 3, &[]);
    assert_successors(rt, lts, 0, 0, &[1, 3]);
    assert_successors(rt, lts, 0, 2, &[3]);
    assert_successors(rt, lts, 1, 1, &[]);
    assert_post(rt, lts, 0, 1, 0, &[1, 3])?;
    assert_post(rt, lts, 2, 1, 0, &[3])?;
    assert_post(rt, lts, 3, 2, 0, &[])
}
