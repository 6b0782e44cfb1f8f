// Each generation reads the table as the one before left it, so a new list waits in a side list until all marked pairs are
// evaluated. The marks keep a generation from going over pairs whose followers stayed as they were.
ghost use Rattle.std.specs.Prelude.{suc, ◌≡◌, ◌+◌, ◌*◌, ◌^◌, ◌<◌, ◌≤◌, ◌↔◌, ◌⊎◌, ℕ, [], length, replicate, set, All, Contains, IfOk, OnOk, OnErr};
ghost use Rattle.spectro_spec.specs.Weighing.{Weighing};
ghost use Rattle.spectro_game.specs.Marks.{evaluations};
ghost use Rattle.spectro_game.specs.Rows.{IsSolved};
ghost use Rattle.spectro_theory.specs.LawsOfGenerations.{ArePartsUpTo};
ghost use Rattle.spectro_rows.specs.Rows.{row_at};
ghost use Rattle.spectro_pairs.specs.Explored.{IsExploredFrom};
ghost use Rattle.spectro_pairs.specs.Arenas.{FromEach};
ghost use Rattle.spectro_solve.specs.Marks.{IsMarked, count_marked};
ghost use Rattle.spectro_solve.specs.Tables.{HaveRoom};
ghost use Rattle.spectro_solve.specs.Counts.{changing_generations};
ghost use Rattle.spectro_solve.specs.Changes.{AreChanges, ArePut, AreWithin, HasChange, HasEvaluated, PrecedesSome};
ghost use Rattle.spectro_solve.specs.Fresh.{AreFresh, KeepsAt};
ghost use Rattle.spectro_solve.specs.Solving.{GoesOn, IsAfter, IsExplored, IsArenaOf};

use crate::evaluation::Work;
use crate::fresh::{evaluate_fresh, is_settled};
use crate::marks::Marks;
use crate::steps::Steps;
use crate::table::Table;
use spectro_lanes::Antichain;
use spectro_lts::Lts;
use spectro_pairs::Arena;
use std::alloc::{AllocError, Global};
use std::sync::ledger::Ledger;

/// The new list of a pair.
#[derive(Drop)]
pub(crate) struct Change {
    /// The number of the pair.
    pub(crate) pair: u32,
    /// Its list after the generation.
    pub(crate) list: Antichain,
}

/// The least prices of each pair of an arena that was explored from the system.
///
/// The first generation evaluates every pair, and each later one those of which some follower changed its list in the one
/// before. After an error some evaluations may be counted.
pub fn solve<L: Ledger>(
    alloc: Global,
    lts: &Lts,
    arena: &Arena,
    steps: &mut Steps<L>,
) -> Result<Table, AllocError>
    requires { IsArenaOf lts.now arena.now }
    ensures rows { IfOk result (λ table. length table.rows ≡ length arena.now.pairs) }
    ensures solved { IfOk result (λ table. FromEach arena.now (λ system weighing. IsSolved weighing system arena.now.pairs table.rows)) }
    ensures parts { IfOk result (λ table. All (All (ArePartsUpTo (length arena.now.pairs))) table.rows) }

    // how much was done
    ensures generations { IfOk result (λ table. FromEach arena.now (λ system weighing.
        table.generations ≡ changing_generations weighing system arena.now.pairs)) }
    ensures few { IfOk result (λ table. table.generations ≤ length arena.now.pairs) }
    ensures evaluations { IfOk result (λ table. FromEach arena.now (λ system weighing. table.evaluations ≡ evaluations weighing system arena.now.pairs)) }
    ensures counted { IfOk result (λ table. steps.new ≡ steps.old + table.evaluations) }
    ensures bound { steps.new ≤ steps.old + length arena.now.pairs * (length arena.now.pairs + 1) }
{
    let pairs = arena.pair_count();
    let mut table = Table::empty(alloc, pairs)?;
    let mut marks = Marks::all(alloc, pairs)?;
    table.run_generations(alloc, arena, &mut marks, steps)?;
    Ok(table)
}

impl Table {
    // A table with an empty list for each of so many pairs.
    fn empty(alloc: Global, pairs: u32) -> Result<Table, AllocError>
        ensures rows { IfOk result (λ table. table.rows ≡ replicate pairs []) }
        ensures generations { IfOk result (λ table. table.generations ≡ 0) }
        ensures evaluations { IfOk result (λ table. table.evaluations ≡ 0) }
    {
        let mut lists = Vec::with_capacity(alloc, pairs as usize)?;
        for _ in 0..pairs {
            lists.push(Antichain::new(alloc))?;
        }
        Ok(Table {
            lists,
            generations: 0,
            evaluations: 0,
        })
    }

    // Runs generations until no pair is marked: at the latest after one more than there are pairs.
    fn run_generations<L: Ledger>(
        &mut self,
        alloc: Global,
        arena: &Arena,
        marks: &mut Marks,
        steps: &mut Steps<L>,
    ) -> Result<(), AllocError>
        requires source { IsExplored arena.now }
        requires start { FromEach arena.now (λ system weighing. IsAfter weighing system arena.now.pairs 0 self.old marks.old) }
        ensures after { OnOk result (FromEach arena.now (λ system weighing.
            IsAfter weighing system arena.now.pairs (length arena.now.pairs + 1) self.new marks.new)) }
        ensures counted { OnOk result (steps.new ≡ steps.old + self.new.evaluations) }
        ensures bound { steps.new ≤ steps.old + length arena.now.pairs * (length arena.now.pairs + 1) }
    {
        let mut work = Work::new(alloc);
        let mut made = Antichain::new(alloc);
        let mut fresh = Marks::none(alloc, arena.pair_count())?;
        for _ in 0..arena.pair_count() + 1 {
            if marks.numbers().is_empty() {
                return Ok(());
            }
            self.run_generation(arena, marks, &mut fresh, &mut work, &mut made, steps)?;
        }
        Ok(())
    }

    // Evaluates the marked pairs over the lists as they are, puts in the lists that changed, and marks the pairs that have
    // one of these pairs as a follower.
    fn run_generation<L: Ledger>(
        &mut self,
        arena: &Arena,
        marks: &mut Marks,
        fresh: &mut Marks,
        work: &mut Work,
        made: &mut Antichain,
        steps: &mut Steps<L>,
    ) -> Result<(), AllocError>
        requires source { IsExplored arena.now }
        requires rows { length self.old.rows ≡ length arena.now.pairs }
        requires marks { length marks.old ≡ length arena.now.pairs }
        requires fresh { length fresh.old ≡ length arena.now.pairs }
        requires kept { (k : ℕ) → KeepsAt arena.now self.old.rows fresh.old k }
        requires room { HaveRoom self.old.rows }
        requires generations { self.old.generations + 1 < 2 ^ 32 }
        requires evaluations { self.old.evaluations + length marks.old < 2 ^ 64 }
        ensures rows { OnOk result (length self.new.rows ≡ length arena.now.pairs) }
        ensures marks { OnOk result (length marks.new ≡ length arena.now.pairs) }
        ensures next { OnOk result (FromEach arena.now (λ system weighing. GoesOn weighing system arena.now.pairs self.old marks.old self.new marks.new)) }
        ensures fresh { OnOk result (length fresh.new ≡ length arena.now.pairs) }
        ensures changed { OnOk result (FromEach arena.now (λ system weighing.
            (n : ℕ) → IsAfter weighing system arena.now.pairs n self.old marks.old → AreFresh weighing system arena.now.pairs (suc n) fresh.new)) }
        ensures evaluations { OnOk result (self.new.evaluations ≡ self.old.evaluations + count_marked marks.old) }
        ensures steps { OnOk result (steps.new ≡ steps.old + count_marked marks.old) }
        ensures bound { steps.new ≤ steps.old + count_marked marks.old }
    {
        marks.sort();
        let changes = evaluate_marked(
            arena,
            &self.lists,
            fresh,
            marks.numbers(),
            work,
            made,
            steps,
        )?;
        self.evaluations += marks.numbers().len() as u64;
        marks.clear();
        fresh.clear();
        if changes.is_empty() {
            return Ok(());
        }
        self.generations += 1;
        mark_predecessors(arena, &changes, marks)?;
        mark_changed(&changes, fresh)?;
        put_in(&mut self.lists, changes);
        Ok(())
    }
}

// The new lists of those of the pairs that do not keep theirs.
fn evaluate_marked<L: Ledger>(
    arena: &Arena,
    lists: &Vec<Antichain>,
    fresh: &Marks,
    numbers: &[u32],
    work: &mut Work,
    made: &mut Antichain,
    steps: &mut Steps<L>,
) -> Result<Vec<Change>, AllocError>
    requires rows { length lists.now.items ≡ length arena.now.pairs }
    requires numbers { (k : ℕ) → Contains numbers.now k → k < length arena.now.pairs }
    requires room { HaveRoom lists.now.items }
    requires fresh { length fresh.now ≡ length arena.now.pairs }
    requires kept { (k : ℕ) → KeepsAt arena.now lists.now.items fresh.now k }
    ensures changes { IfOk result (λ changes. AreChanges arena.now lists.now.items numbers.now changes.items) }
    ensures steps { OnOk result (steps.new ≡ steps.old + length numbers.now) }
    ensures bound { steps.new ≤ steps.old + length numbers.now }
{
    let mut changes = Vec::new(*lists.allocator());
    for k in numbers {
        evaluate_one(arena, lists, fresh, *k, work, made, &mut changes, steps)?;
    }
    Ok(changes)
}

// Evaluates pair `k`, and puts its new list last unless it keeps its list.
fn evaluate_one<L: Ledger>(
    arena: &Arena,
    lists: &[Antichain],
    fresh: &Marks,
    k: u32,
    work: &mut Work,
    made: &mut Antichain,
    changes: &mut Vec<Change>,
    steps: &mut Steps<L>,
) -> Result<(), AllocError>
    requires pair { k < length arena.now.pairs }
    requires rows { length lists.now ≡ length arena.now.pairs }
    requires room { HaveRoom lists.now }
    requires fresh { length fresh.now ≡ length arena.now.pairs }
    requires kept { KeepsAt arena.now lists.now fresh.now k }
    ensures changes { OnOk result (HasEvaluated arena.now lists.now k changes.old.items changes.new.items) }
    ensures steps { steps.new ≡ steps.old + 1 }
{
    steps.count();
    if is_settled(arena, lists, fresh, k) {
        return Ok(());
    }
    evaluate_fresh(arena, lists, fresh, k, work, made)?;
    if made.is_same(&lists[k as usize]) {
        return Ok(());
    }
    let list = made.copy()?;
    changes.push(Change { pair: k, list })?;
    Ok(())
}

// Marks the pairs that have one of the changed pairs as a follower.
fn mark_predecessors(arena: &Arena, changes: &[Change], marks: &mut Marks) -> Result<(), AllocError>
    requires source { IsExplored arena.now }
    requires changes { AreWithin (length arena.now.pairs) changes.now }
    requires marks { length marks.old ≡ length arena.now.pairs }
    ensures len { OnOk result (length marks.new ≡ length marks.old) }
    ensures marked { OnOk result (FromEach arena.now (λ system weighing. (k : ℕ) →
        IsMarked marks.new k ↔ IsMarked marks.old k ⊎ PrecedesSome system arena.now.pairs changes.now k)) }
{
    for change in changes {
        marks.mark_all(arena.preds(change.pair))?;
    }
    Ok(())
}

// Marks the pairs whose lists changed.
fn mark_changed(changes: &[Change], fresh: &mut Marks) -> Result<(), AllocError>
    requires { AreWithin (length fresh.old) changes.now }
    ensures len { OnOk result (length fresh.new ≡ length fresh.old) }
    ensures marked { OnOk result ((k : ℕ) → IsMarked fresh.new k ↔ IsMarked fresh.old k ⊎ HasChange changes.now k) }
{
    for change in changes {
        fresh.mark(change.pair)?;
    }
    Ok(())
}

// Puts each new list in place of the old one.
fn put_in(lists: &mut [Antichain], changes: Vec<Change>)
    requires { AreWithin (length lists.old) changes.items }
    ensures { ArePut changes.items lists.old lists.new }
{
    for change in changes {
        put(lists, change);
    }
}

// Puts one new list in place of the old one.
fn put(lists: &mut [Antichain], change: Change)
    requires { change.pair < length lists.old }
    ensures { lists.new ≡ set lists.old change.pair change.list }
{
    let Change { pair, list } = change;
    lists[pair as usize] = list;
}
