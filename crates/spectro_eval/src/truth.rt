// A sheet is evaluated from below, as model checkers label states (Clarke, Emerson and Sistla, 1986): each node gets a row
// that says at which states its formula is true, and is written from the rows of nodes before it. So a node that formulas
// share is evaluated once, and nothing recurs as deep as a formula is. A row has a bit for each state: a conjunction is done
// word by word, for 64 states at once, and an observation goes through the steps under its label alone, which are grouped
// by label first. To begin at one state and follow the formula from there would look at fewer states, but at each of them
// again for each path that leads to it.
ghost use Rattle.std.specs.Prelude.{◌≡◌, ℕ, ◌+◌, ◌<◌, ◌↔◌, List, [], false, length, take, slice_index_or, IfOk, IsTrue};
ghost use Rattle.spectro_spec.specs.System.{System, IsWhole};
ghost use Rattle.spectro_spec.specs.Formula.{Satisfies};
ghost use Rattle.spectro_hml.specs.Sheets.{SheetNode, formulas_of, unfolded};
ghost use Rattle.spectro_eval.specs.StateTables.{AreTruths};
ghost use Rattle.spectro_eval.specs.Rows.{words_of, bits_of};
ghost use Rattle.spectro_eval.specs.StepsByLabel.{AreByLabel};
ghost use Rattle.spectro_eval.specs.Truths.{AreSheetTruths, AreRows};

use crate::row::{bit_of, row_at, words_of, write_conjunction, write_observation};
use crate::steps::StepsByLabel;
use spectro_hml::{Node, Sheet};
use spectro_lts::Lts;
use std::alloc::{AllocError, Global};
use std::marker::Model;

/// At which states the formulas of a sheet are true: a row for each node, lowest first, with a bit for each state.
#[derive(Drop)]
pub struct Truth {
    states: u32,
    rows: Vec<u64>,
}

impl Model for Truth {
    ghost use Rattle.std.specs.Prelude.{Bool, List};
    ghost use Rattle.spectro_eval.specs.Rows.{rows_of};

    ghost Value = { List (List Bool) };

    ghost view = { λ truth. rows_of truth.states truth.rows.items };
}

impl Truth {
    /// At which states the formulas of the sheet are true.
    pub fn of(alloc: Global, lts: &Lts, sheet: &Sheet) -> Result<Truth, AllocError>
        ensures { IfOk result (λ truth. AreSheetTruths lts.now sheet.now truth) }
    {
        let states = lts.states();
        let by_label = StepsByLabel::of(alloc, lts)?;
        let mut rows = Vec::new(alloc);
        let mut words = vec![in alloc; 0; words_of(states)]?;
        let row = words.as_mut_slice();
        for node in 0..sheet.len() {
            write_row(lts, &by_label, sheet, node, &rows, row);
            rows.extend_from_slice(row)?;
        }
        Ok(Truth { states, rows })
    }

    /// Whether the formula of the node is true at the state.
    pub fn at(&self, node: usize, state: u32) -> bool
        requires node { node < length self.now }
        requires state { state < length (slice_index_or self.now node []) }
        ensures value { result ≡ slice_index_or (slice_index_or self.now node []) state false }
        ensures truth { (system : System) (nodes : List SheetNode) → AreSheetTruths system nodes self.now
            → IsTrue result ↔ Satisfies system state (unfolded nodes node) }
    {
        bit_of(row_at(&self.rows, words_of(self.states), node), state)
    }
}

// Writes the row of the node. The rows of the nodes before it are there.
fn write_row(
    lts: &Lts,
    by_label: &StepsByLabel,
    sheet: &Sheet,
    node: usize,
    rows: &[u64],
    row: &mut [u64],
)
    requires whole { IsWhole lts.now }
    requires by_label { AreByLabel lts.now.steps by_label.now }
    requires node { node < length sheet.now }
    requires rows { AreRows lts.now (formulas_of (take node sheet.now)) rows.now }
    requires row { length row.old ≡ words_of lts.now.states }
    ensures { AreTruths lts.now (unfolded (take (node + 1) sheet.now) node) (bits_of lts.now.states row.new) }
{
    match sheet.node(node) {
        Node::See { label, next } => write_observation(
            lts,
            by_label,
            label,
            row_at(rows, row.len(), next),
            row,
        ),
        Node::All { clauses } => write_conjunction(rows, clauses, row),
    }
}
