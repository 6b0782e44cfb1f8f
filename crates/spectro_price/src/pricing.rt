ghost use Rattle.std.specs.Prelude.{◌≡◌, ◌+◌, ◌≤◌, ◌<◌, All, IfOk, length, map};
ghost use Rattle.spectro_spec.specs.Price.{IsAtMost};
ghost use Rattle.spectro_spec.specs.Pricing.{price, price_of_conjunction};
ghost use Rattle.spectro_energy.specs.Energy.{price_of, prices_of};
ghost use Rattle.spectro_hml.specs.Nodes.{node_shown};
ghost use Rattle.spectro_hml.specs.Sheets.{IsNodeAt, formulas_of};
ghost use Rattle.spectro_price.specs.NodePrices.{AreLow, limit, priced_clause, price_of_node};

use spectro_energy::{Energy, Update};
use spectro_hml::{Clause, Node, Sheet};
use spectro_weights::Weights;
use std::alloc::{AllocError, Global};

/// How many nodes a sheet may have that is priced: up to here each part fits 32 bits.
pub const MAX_NODES: usize = 16_777_216;

/// What the formula of each node costs, in order.
pub fn prices(alloc: Global, sheet: &Sheet, weights: &Weights) -> Result<Vec<Energy>, AllocError>
    requires few { length sheet.now ≤ MAX_NODES }
    ensures value { IfOk result (λ found. prices_of found.items ≡ map (price weights.now) (formulas_of sheet.now)) }
{
    let mut found = Vec::with_capacity(alloc, sheet.len())?;
    for k in 0..sheet.len() {
        let price = node_price(found.as_slice(), sheet.node(k), weights);
        found.push(price)?;
    }
    Ok(found)
}

// What the formula of a node costs, where these are the prices of the nodes before it.
fn node_price(before: &[Energy], node: Node<'_>, weights: &Weights) -> Energy
    requires names { IsNodeAt (length before.now) (node_shown node) }
    requires few { length before.now < MAX_NODES }
    requires low { AreLow (length before.now + 1) (prices_of before.now) }
    ensures value { price_of result.parts ≡ price_of_node weights.now (prices_of before.now) (node_shown node.entry) }
    ensures low { IsAtMost (price_of result.parts) (limit (length before.now + 2)) }
{
    match node {
        Node::See { label, next } => before[next].inverse(Update::Observe {
            weight: weights.of(label),
        }),
        Node::All { clauses } => conjunction_price(before, clauses),
    }
}

// What the conjunction of the clauses costs.
fn conjunction_price(before: &[Energy], clauses: &[Clause]) -> Energy
    requires names { All (λ clause. clause.node < length before.now) clauses.now }
    requires few { length before.now < MAX_NODES }
    requires low { AreLow (length before.now + 1) (prices_of before.now) }
    ensures value { price_of result.parts ≡ price_of_conjunction (map (priced_clause (prices_of before.now)) clauses.now) }
    ensures low { IsAtMost (price_of result.parts) (limit (length before.now + 2)) }
{
    let mut cost = Energy { parts: [0; 7] };
    // the two greatest depths of positive clauses
    let mut deepest: u32 = 0;
    let mut other: u32 = 0;
    for clause in clauses {
        let price = before[clause.node];
        if clause.positive {
            let [depth, ..] = price.parts;
            other = other.max(depth.min(deepest));
            deepest = deepest.max(depth);
            cost = cost.sup(price);
        } else {
            cost = cost.sup(price.inverse(Update::Negative));
        }
    }
    let depths = Energy {
        parts: [0, 0, deepest, other, 0, 0, 0],
    };
    cost.sup(depths).inverse(Update::Conjoin)
}
