use crate::samples::clause;
use spectro_hml::{Node, Sheet};
use std::alloc::{AllocError, Global};
use std::process::Abort;

// Truth; a step under a; no step under a.
fn no_step(alloc: Global) -> Result<Sheet, AllocError> {
    let mut sheet = Sheet::new(alloc);
    sheet.push_all(&[])?;
    sheet.push_see("a", 0)?;
    sheet.push_all(&[clause(false, 1)])?;
    Ok(sheet)
}

fn is_node(rt: &impl Abort, sheet: &Sheet, k: usize, node: Node<'_>) {
    assert!(rt; k < sheet.len());
    assert_eq!(rt; sheet.node(k), node, "node {k}");
}

#[test]
fn tells_each_node(rt: HostRuntime) -> Result<(), AllocError> {
    let sheet = no_step(rt.alloc())?;
    assert_eq!(rt; sheet.len(), 3);
    is_node(&rt, &sheet, 0, Node::All { clauses: &[] });
    let see = Node::See {
        label: "a",
        next: 0,
    };
    is_node(&rt, &sheet, 1, see);
    let not_seen = [clause(false, 1)];
    is_node(&rt, &sheet, 2, Node::All { clauses: &not_seen });
    Ok(())
}
