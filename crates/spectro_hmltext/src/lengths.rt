ghost use Rattle.std.specs.Prelude.{◌≡◌, ◌+◌, ◌-◌, ◌^◌, ◌<◌, ◌≤◌, min, length, All, IfOk};
ghost use Rattle.std.specs.List.{sum_by};
ghost use Rattle.spectro_hml.specs.Sheets.{unfolded};
ghost use Rattle.spectro_hmltext.specs.Lengths.{AreLengths, clause_bytes, text_bytes};

use crate::label::label_bytes;
use spectro_hml::{Clause, Node, Sheet};
use std::alloc::{AllocError, Global};

/// How many bytes the text of the node's formula has, but at most the greatest number of 64 bits: shared parts
/// count each time, so a sheet of 100 nodes can have a formula with more.
pub(crate) fn text_bytes(alloc: Global, sheet: &Sheet, node: usize) -> Result<u64, AllocError>
    requires { node < length sheet.now }
    ensures { IfOk result (λ bytes. bytes ≡ text_bytes (unfolded sheet.now node)) }
{
    let before = lengths_before(alloc, sheet, node)?;
    Ok(node_bytes(before.as_slice(), sheet, node))
}

/// The same for each node of the sheet. It takes time by the nodes and their clauses, however great the formulas are.
pub fn text_lengths(alloc: Global, sheet: &Sheet) -> Result<Vec<u64>, AllocError>
    ensures { IfOk result (λ lengths. AreLengths sheet.now (length sheet.now) lengths.items) }
{
    lengths_before(alloc, sheet, sheet.len())
}

// The same for the first `count` nodes.
fn lengths_before(alloc: Global, sheet: &Sheet, count: usize) -> Result<Vec<u64>, AllocError>
    requires { count ≤ length sheet.now }
    ensures { IfOk result (λ before. AreLengths sheet.now count before.items) }
{
    let mut before = Vec::with_capacity(alloc, count)?;
    for k in 0..count {
        let bytes = node_bytes(before.as_slice(), sheet, k);
        before.push(bytes)?;
    }
    Ok(before)
}

// The same from the lengths for the nodes before it.
fn node_bytes(before: &[u64], sheet: &Sheet, k: usize) -> u64
    requires within { k < length sheet.now }
    requires before { AreLengths sheet.now k before.now }
    ensures { result ≡ text_bytes (unfolded sheet.now k) }
{
    match sheet.node(k) {
        Node::See { label, next } => before[next].saturating_add(label_bytes(label) + 2),
        Node::All { clauses: [] } => 2,
        Node::All { clauses } => conjunction_bytes(before, clauses),
    }
}

// The same of a conjunction of these clauses, of which there are some.
fn conjunction_bytes(before: &[u64], clauses: &[Clause]) -> u64
    requires { All (λ clause. clause.node < length before.now) clauses.now }
    ensures { result ≡ min (4 + sum_by (clause_bytes before.now) clauses.now) (2 ^ 64 - 1) }
{
    // `and{}`, less the comma that the first clause has not
    let mut bytes: u64 = 4;
    for clause in clauses {
        // `,` or `,not `
        let mark = if clause.positive { 1 } else { 5 };
        bytes = bytes
            .saturating_add(mark)
            .saturating_add(before[clause.node]);
    }
    bytes
}
