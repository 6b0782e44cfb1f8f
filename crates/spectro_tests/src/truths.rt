use crate::samples::clause;
use spectro_eval::Truth;
use spectro_hml::Sheet;
use spectro_lts::{Draft, Lts};
use std::alloc::{AllocError, Global};
use std::process::Abort;

// Where the formula of each node is true, by state.
const TRUE_AT: [[bool; 4]; 5] = [
    [true, true, true, true],
    [false, true, false, false],
    [true, false, false, false],
    [true, false, true, true],
    [true, false, false, false],
];

// Two steps under `a`, of which one leads on to a step under `b`.
fn branches(alloc: Global) -> Result<Lts, AllocError> {
    let mut draft = Draft::new(alloc, 4, 0)?;
    draft.add(0, "a", 1)?;
    draft.add(0, "a", 2)?;
    draft.add(1, "b", 3)?;
    draft.finish()
}

// Truth; a step under `b`; one under `a` to there; no step under `b`; one under `a` to there.
fn shared_parts(alloc: Global) -> Result<Sheet, AllocError> {
    let mut sheet = Sheet::new(alloc);
    sheet.push_all(&[])?;
    sheet.push_see("b", 0)?;
    sheet.push_see("a", 1)?;
    sheet.push_all(&[clause(false, 1)])?;
    sheet.push_see("a", 3)?;
    Ok(sheet)
}

// Whether the node's formula is true at the state, where there is memory.
fn told(alloc: Global, lts: &Lts, sheet: &Sheet, node: usize, state: u32) -> Option<bool> {
    let truth = Truth::of(alloc, lts, sheet).ok()?;
    if node < sheet.len() && state < lts.states() {
        Some(truth.at(node, state))
    } else {
        None
    }
}

// The formula of the node is true at just these states.
fn is_true_at(
    rt: &impl Abort,
    alloc: Global,
    lts: &Lts,
    sheet: &Sheet,
    node: usize,
    states: &[bool; 4],
) {
    for (state, want) in states.iter().enumerate() {
        let found = told(alloc, lts, sheet, node, state as u32);
        assert_eq!(rt; found, Some(*want), "node {node} at {state}");
    }
}

#[test]
fn tells_each_node_at_each_state(rt: HostRuntime) -> Result<(), AllocError> {
    let lts = branches(rt.alloc())?;
    let sheet = shared_parts(rt.alloc())?;
    for (node, states) in TRUE_AT.iter().enumerate() {
        is_true_at(&rt, rt.alloc(), &lts, &sheet, node, states);
    }
    Ok(())
}
