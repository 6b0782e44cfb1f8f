use crate::samples::clause;
use spectro_hml::Sheet;
use spectro_price::{MAX_NODES, prices};
use spectro_weights::Weights;
use std::alloc::{AllocError, Global};
use std::process::Abort;
use std::test::Fail;

// What the nodes of the sheet of shared parts cost, by number.
const SHARED: [[u32; 7]; 6] = [
    [0, 1, 0, 0, 0, 0, 0],
    [1, 1, 0, 0, 0, 0, 1],
    [1, 1, 0, 0, 0, 0, 1],
    [1, 2, 1, 1, 0, 0, 1],
    [2, 2, 1, 1, 0, 0, 2],
    [1, 2, 0, 0, 1, 1, 1],
];

// Truth; a step under c; one under b; both; one under a to there; no step under c.
fn shared_parts(alloc: Global) -> Result<Sheet, AllocError> {
    let mut sheet = Sheet::new(alloc);
    sheet.push_all(&[])?;
    sheet.push_see("c", 0)?;
    sheet.push_see("b", 0)?;
    sheet.push_all(&[clause(true, 1), clause(true, 2)])?;
    sheet.push_see("a", 3)?;
    sheet.push_all(&[clause(false, 1)])?;
    Ok(sheet)
}

// Truth; one, two and three steps under a; all of these.
fn three_depths(alloc: Global) -> Result<Sheet, AllocError> {
    let mut sheet = Sheet::new(alloc);
    sheet.push_all(&[])?;
    sheet.push_see("a", 0)?;
    sheet.push_see("a", 1)?;
    sheet.push_see("a", 2)?;
    sheet.push_all(&[clause(true, 1), clause(true, 2), clause(true, 3)])?;
    Ok(sheet)
}

// What the node costs.
fn cost(alloc: Global, sheet: &Sheet, weights: &Weights, node: usize) -> Result<[u32; 7], Fail> {
    if sheet.len() > MAX_NODES {
        return Err(Fail::new("too many nodes"));
    }
    let found = prices(alloc, sheet, weights)?;
    let energy = found.get(node).ok_or("no such node")?;
    Ok(energy.parts)
}

fn costs(
    rt: &impl Abort,
    alloc: Global,
    sheet: &Sheet,
    weights: &Weights,
    node: usize,
    parts: &[u32; 7],
) -> Result<(), Fail> {
    assert_eq!(rt; cost(alloc, sheet, weights, node)?, *parts, "node {node}");
    Ok(())
}

#[test]
fn each_node_costs_what_its_formula_does(rt: HostRuntime) -> Result<(), Fail> {
    let sheet = shared_parts(rt.alloc())?;
    let weights = Weights::new(rt.alloc());
    for (node, parts) in SHARED.iter().enumerate() {
        costs(&rt, rt.alloc(), &sheet, &weights, node, parts)?;
    }
    Ok(())
}

// a weighs 0, and b 5.
fn weighed(alloc: Global) -> Result<Weights, AllocError> {
    let mut weights = Weights::new(alloc);
    weights.set("a", 0)?;
    weights.set("b", 5)?;
    Ok(weights)
}

#[test]
fn the_last_part_is_by_weight(rt: HostRuntime) -> Result<(), Fail> {
    let sheet = shared_parts(rt.alloc())?;
    let weights = weighed(rt.alloc())?;
    costs(&rt, rt.alloc(), &sheet, &weights, 4, &[2, 2, 1, 1, 0, 0, 5])
}

#[test]
fn the_deepest_clause_is_set_apart_from_the_others(rt: HostRuntime) -> Result<(), Fail> {
    let sheet = three_depths(rt.alloc())?;
    let weights = Weights::new(rt.alloc());
    costs(&rt, rt.alloc(), &sheet, &weights, 4, &[3, 2, 3, 2, 0, 0, 3])
}
