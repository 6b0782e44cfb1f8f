ghost use Rattle.std.proofs.Common.{rules};
ghost use Rattle.std.specs.Cmp.{partial_order_from_own_ties};
ghost use Rattle.std.specs.Cmp.Rules.{comparing};
ghost use Rattle.std.specs.Ordering.{as_partial_cmp};

use std::cmp::Ordering;

/// A clause of a conjunction: its sign, and the number of the node of its formula. Clauses are ordered by node, and
/// for one node the positive clause comes first.
#[derive(Clone, Copy, Debug, Default, PartialEq, Eq)]
pub struct Clause {
    pub positive: bool,
    pub node: usize,
}

impl Ord for Clause {
    ghost use Rattle.spectro_hml.specs.Clauses.{clause_order};

    ghost cmp = { clause_order };

    ghost total = { Prim.search (comparing, rules) };

    ghost matches_partial_cmp = { Prim.search (comparing, rules) };

    ghost matches_eq = { Prim.search (comparing, rules) };

    fn cmp(&self, other: &Clause) -> Ordering {
        let signs = other.positive.cmp(&self.positive);
        self.node.cmp(&other.node).then(signs)
    }
}

impl PartialOrd for Clause {
    ghost use Rattle.spectro_hml.specs.Clauses.{clause_order};

    ghost partial_cmp = { as_partial_cmp clause_order };

    ghost laws = { partial_order_from_own_ties (Prim.search (comparing, rules)) (Prim.search (comparing, rules)) };

    fn partial_cmp(&self, other: &Clause) -> Option<Ordering> {
        Some(self.cmp(other))
    }
}

/// A node of a sheet.
#[derive(Clone, Copy, Debug, PartialEq, Eq)]
pub enum Node<'a> {
    /// A step under the label leads to where the formula of the next node is true.
    See { label: &'a str, next: usize },
    /// The formula of each positive clause is true, and that of each negative clause is not.
    All { clauses: &'a [Clause] },
}
