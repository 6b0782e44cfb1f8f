ghost use Rattle.std.specs.Prelude.{◌≡◌, ◌+◌, ◌<◌, length, IfOk, OnOk};
ghost use Rattle.spectro_solve.specs.Evaluations.{IsEvaluated};
ghost use Rattle.spectro_solve.specs.Tables.{HaveRoom};

use crate::observations::add_observations;
use crate::splits::add_splits;
use crate::steps::Steps;
use crate::table::Table;
use spectro_lanes::Antichain;
use spectro_pairs::Arena;
use std::alloc::{AllocError, Global};
use std::sync::ledger::Ledger;

/// The work lists of an evaluation, which are lent from one to the next.
#[derive(Drop)]
pub(crate) struct Work {
    pub(crate) clauses: Vec<Antichain>,
    pub(crate) chosen: Vec<Antichain>,
}

impl Work {
    /// Work lists for evaluations to come. They take no memory yet.
    pub fn new(alloc: Global) -> Work {
        Work {
            clauses: Vec::new(alloc),
            chosen: Vec::new(alloc),
        }
    }
}

/// Makes the backward step at pair `k` over the lists, and counts one step.
pub fn evaluate_into<L: Ledger>(
    arena: &Arena,
    lists: &[Antichain],
    k: u32,
    work: &mut Work,
    made: &mut Antichain,
    steps: &mut Steps<L>,
) -> Result<(), AllocError>
    requires pair { k < length arena.now.pairs }
    requires lists { length lists.now ≡ length arena.now.pairs }
    requires room { HaveRoom lists.now }
    ensures made { OnOk result (IsEvaluated arena.now lists.now k made.new) }
    ensures steps { steps.new ≡ steps.old + 1 }
{
    steps.count();
    made.clear();
    add_observations(arena, lists, k, made)?;
    add_splits(arena, lists, k, &mut work.clauses, &mut work.chosen, made)?;
    // That a list rises and that its members are apart is known from a call of `len`.
    prove!(made.len() <= usize::MAX);
    Ok(())
}

/// The backward step over the table at pair `k`: the least energies from which a step back leads into the table. It counts one
/// step.
pub fn evaluate<L: Ledger>(
    alloc: Global,
    arena: &Arena,
    table: &Table,
    k: u32,
    steps: &mut Steps<L>,
) -> Result<Antichain, AllocError>
    requires pair { k < length arena.now.pairs }
    requires lists { length table.now.rows ≡ length arena.now.pairs }
    requires room { HaveRoom table.now.rows }
    ensures list { IfOk result (λ list. IsEvaluated arena.now table.now.rows k list) }
    ensures steps { steps.new ≡ steps.old + 1 }
{
    let mut work = Work::new(alloc);
    let mut made = Antichain::new(alloc);
    evaluate_into(arena, &table.lists, k, &mut work, &mut made, steps)?;
    Ok(made)
}
