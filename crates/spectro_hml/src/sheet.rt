ghost use Rattle.std.specs.Prelude.{◌≡◌, ◌<◌, ◌==◌, [], ◌∷◌, ◌++◌, length, slice_get, Some, All, IfOk, OnErr, OnOk};
ghost use Rattle.spectro_spec.specs.System.{IsLabel};
ghost use Rattle.spectro_hml.specs.Nodes.{node_shown};
ghost use Rattle.spectro_hml.specs.Clauses.{ClausesRise};
ghost use Rattle.spectro_hml.specs.Sheets.{IsNodeAt, IsSheet, all_node, see_node};

use crate::node::{Clause, Node};
use smallvec::SmallVec;
use std::alloc::{AllocError, Global};
use std::marker::Model;

// A node as it is kept. Up to two clauses take no allocation.
#[derive(Drop)]
enum Kept {
    See { label: String, next: usize },
    All { clauses: SmallVec<Clause, 2> },
}

/// Formulas whose parts are shared. Each node names nodes before it, and stands for the formula that it unfolds to.
#[derive(Drop)]
pub struct Sheet {
    nodes: Vec<Kept>,
}

impl Model for Sheet {
    ghost use Rattle.std.specs.Prelude.{List, map};
    ghost use Rattle.spectro_hml.specs.Nodes.{node_kept};
    ghost use Rattle.spectro_hml.specs.Sheets.{SheetNode, IsSheet};

    ghost Value = { List SheetNode };

    ghost view = { λ sheet. map node_kept sheet.nodes.items };

    ghost invariant = { λ sheet. IsSheet (map node_kept sheet.nodes.items) };
}

impl Sheet {
    /// A sheet without nodes. It takes no memory.
    pub fn new(alloc: Global) -> Sheet
        ensures { result ≡ [] }
    {
        Sheet {
            nodes: Vec::new(alloc),
        }
    }

    /// Adds an observation before the formula of the node `next`. Answers its number.
    pub fn push_see(&mut self, label: &str, next: usize) -> Result<usize, AllocError>
        requires label { IsLabel label.now }
        requires before { next < length self.old }
        ensures ok { OnOk result (self.new ≡ self.old ++ see_node label.now next ∷ []) }
        ensures number { IfOk result (λ number. number ≡ length self.old) }
        ensures err { OnErr result (self.new ≡ self.old) }
    {
        let number = self.nodes.len();
        self.nodes.reserve(1)?;
        let label = String::from_str(*self.nodes.allocator(), label)?;
        self.nodes.push_reserved(Kept::See { label, next });
        Ok(number)
    }

    /// Adds a conjunction. Answers its number.
    pub fn push_all(&mut self, clauses: &[Clause]) -> Result<usize, AllocError>
        requires rise { ClausesRise clauses.now }
        requires before { All (λ clause. clause.node < length self.old) clauses.now }
        ensures ok { OnOk result (self.new ≡ self.old ++ all_node clauses.now ∷ []) }
        ensures number { IfOk result (λ number. number ≡ length self.old) }
        ensures err { OnErr result (self.new ≡ self.old) }
    {
        let number = self.nodes.len();
        self.nodes.reserve(1)?;
        let clauses = SmallVec::from_slice(*self.nodes.allocator(), clauses)?;
        self.nodes.push_reserved(Kept::All { clauses });
        Ok(number)
    }

    /// How many nodes there are.
    pub fn len(&self) -> usize
        ensures value { result ≡ length self.now }
        ensures sheet { IsSheet self.now }
    {
        self.nodes.len()
    }

    /// Whether there is no node.
    pub fn is_empty(&self) -> bool
        ensures { result ≡ (length self.now == 0) }
    {
        self.nodes.is_empty()
    }

    /// The node of the number.
    pub fn node(&self, k: usize) -> Node<'_>
        requires { k < length self.now }
        ensures node { slice_get self.now k ≡ Some (node_shown result) }
        ensures names { IsNodeAt k (node_shown result) }
    {
        match &self.nodes[k] {
            Kept::See { label, next } => Node::See {
                label: label.as_str(),
                next: *next,
            },
            Kept::All { clauses } => Node::All {
                clauses: clauses.as_slice(),
            },
        }
    }
}
