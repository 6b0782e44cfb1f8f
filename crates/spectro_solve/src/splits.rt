ghost use Rattle.std.specs.Prelude.{ℕ, ◌+◌, ◌-◌, ◌≡◌, ◌<◌, ◌≤◌, ◌^◌, length, OnOk};
ghost use Rattle.std.specs.Vec.{vec_len};
ghost use Rattle.spectro_game.specs.Rows.{listed_at};
ghost use Rattle.spectro_pairs.specs.Arenas.{set_at};
ghost use Rattle.spectro_rows.specs.Rows.{row_at};
ghost use Rattle.spectro_solve.specs.Added.{CanBeConjoined, Grows, IsAdded};
ghost use Rattle.spectro_solve.specs.Choices.{AffordsBy, AffordsConjunction, AffordsMask, AffordsSplitAmong, AreChosenTo};
ghost use Rattle.spectro_solve.specs.Clauses.{AreClauseLists};
ghost use Rattle.spectro_solve.specs.Evaluations.{AtPair};
ghost use Rattle.spectro_solve.specs.Tables.{HaveRoom};

use crate::choices::choose_for;
use crate::clauses::list_clause;
use crate::pulls::{add_joined, add_pulled};
use spectro_energy::Update;
use spectro_lanes::Antichain;
use spectro_pairs::Arena;
use std::alloc::AllocError;

/// Adds what the splits of the set of pair `k` make of the lists. The work lists are lent.
pub(crate) fn add_splits(
    arena: &Arena,
    lists: &[Antichain],
    k: u32,
    clauses: &mut Vec<Antichain>,
    chosen: &mut Vec<Antichain>,
    made: &mut Antichain,
) -> Result<(), AllocError>
    requires pair { k < length arena.now.pairs }
    requires lists { length lists.now ≡ length arena.now.pairs }
    requires room { HaveRoom lists.now }
    ensures { OnOk result (AtPair arena.now k (λ system weighing x. IsAdded (AffordsConjunction (listed_at arena.now.pairs lists.now) x) made.old made.new)) }
{
    let size = arena.set(k).len();
    grow(clauses, size)?;
    grow(chosen, 1 << size)?;
    let clauses = &mut clauses[..size];
    list_clauses(arena, lists, k, clauses)?;
    add_masks(arena, lists, k, clauses, chosen, made)
}

// Adds empty lists until there are n.
fn grow(lists: &mut Vec<Antichain>, n: usize) -> Result<(), AllocError>
    ensures { OnOk result (n ≤ vec_len lists.new) }
{
    let alloc = *lists.allocator();
    for _ in lists.len()..n {
        lists.push(Antichain::new(alloc))?;
    }
    Ok(())
}

/// Adds the conjunctions of one clause that refutes the members of the mask, and of what is chosen for all others.
pub(crate) fn add_split(
    arena: &Arena,
    lists: &[Antichain],
    k: u32,
    mask: u32,
    chosen: &Antichain,
    made: &mut Antichain,
) -> Result<(), AllocError>
    requires pair { k < length arena.now.pairs }
    requires mask { mask < 2 ^ length (set_at arena.now.pairs k) }
    requires lists { length lists.now ≡ length arena.now.pairs }
    requires room { HaveRoom lists.now }
    requires low { CanBeConjoined chosen.now }
    ensures added { OnOk result (AtPair arena.now k (λ system weighing x.
        IsAdded (AffordsBy (listed_at arena.now.pairs lists.now) x mask chosen.now) made.old made.new)) }
    ensures grows { OnOk result (Grows made.old made.new) }
{
    if chosen.is_empty() {
        return Ok(());
    }
    if mask == 0 {
        return add_pulled(made, chosen, Update::Conjoin);
    }
    let together = arena.subset(k, mask);
    add_joined(made, chosen, &lists[together as usize])
}

/// Makes the list of each clause that tells the state of pair `k` from a member of its set.
pub(crate) fn list_clauses(
    arena: &Arena,
    lists: &[Antichain],
    k: u32,
    clauses: &mut [Antichain],
) -> Result<(), AllocError>
    requires pair { k < length arena.now.pairs }
    requires clauses { length clauses.old ≡ length (set_at arena.now.pairs k) }
    requires few { length (set_at arena.now.pairs k) ≤ 19 }
    requires lists { length lists.now ≡ length arena.now.pairs }
    requires room { HaveRoom lists.now }
    ensures len { length clauses.new ≡ length clauses.old }
    ensures clauses { OnOk result (AtPair arena.now k (λ system weighing x.
        AreClauseLists (listed_at arena.now.pairs lists.now) x (length clauses.old) clauses.new)) }
    ensures low { OnOk result ((i : ℕ) → i < length clauses.old → CanBeConjoined (row_at clauses.new i)) }
{
    for i in 0..clauses.len() {
        list_clause(arena, lists, k, i as u32, &mut clauses[i])?;
    }
    Ok(())
}

/// Adds the conjunctions of all masks, where the lists of the clauses of the members are given.
pub(crate) fn add_masks(
    arena: &Arena,
    lists: &[Antichain],
    k: u32,
    clauses: &[Antichain],
    chosen: &mut [Antichain],
    made: &mut Antichain,
) -> Result<(), AllocError>
    requires pair { k < length arena.now.pairs }
    requires lists { length lists.now ≡ length arena.now.pairs }
    requires room { HaveRoom lists.now }
    requires clauses { length clauses.now ≡ length (set_at arena.now.pairs k) }
    requires few { length clauses.now ≤ 19 }
    requires low { (i : ℕ) → i < length clauses.now → CanBeConjoined (row_at clauses.now i) }
    requires chosen { 2 ^ length clauses.now ≤ length chosen.old }
    ensures { OnOk result (AtPair arena.now k (λ system weighing x.
        IsAdded (AffordsSplitAmong (listed_at arena.now.pairs lists.now) x clauses.now (2 ^ length clauses.now)) made.old made.new)) }
{
    for mask in 0..1 << clauses.len() {
        add_next(arena, lists, k, clauses, chosen, mask, made)?;
    }
    Ok(())
}

/// Chooses for the mask, and adds the conjunctions of what is chosen and of one clause that refutes all other members.
pub(crate) fn add_next(
    arena: &Arena,
    lists: &[Antichain],
    k: u32,
    clauses: &[Antichain],
    chosen: &mut [Antichain],
    mask: usize,
    made: &mut Antichain,
) -> Result<(), AllocError>
    requires pair { k < length arena.now.pairs }
    requires lists { length lists.now ≡ length arena.now.pairs }
    requires room { HaveRoom lists.now }
    requires clauses { length clauses.now ≡ length (set_at arena.now.pairs k) }
    requires few { length clauses.now ≤ 19 }
    requires low { (i : ℕ) → i < length clauses.now → CanBeConjoined (row_at clauses.now i) }
    requires mask { mask < 2 ^ length clauses.now }
    requires place { mask < length chosen.old }
    requires smaller { AreChosenTo clauses.now made.old mask chosen.old }
    ensures len { length chosen.new ≡ length chosen.old }
    ensures chosen { OnOk result (AreChosenTo clauses.now made.new (mask + 1) chosen.new) }
    ensures added { OnOk result (AtPair arena.now k (λ system weighing x.
        IsAdded (AffordsMask (listed_at arena.now.pairs lists.now) x clauses.now mask) made.old made.new)) }
{
    let (smaller, rest) = chosen.split_at_mut(mask);
    choose_for(clauses, smaller, made, &mut rest[0])?;
    let others = mask_of_others(clauses.len(), mask);
    add_split(arena, lists, k, others, &rest[0], made)
}

// The mask of those of n members whose bits are not set.
fn mask_of_others(n: usize, mask: usize) -> u32
    requires few { n ≤ 19 }
    requires mask { mask < 2 ^ n }
    ensures { result ≡ 2 ^ n - 1 - mask }
{
    ((1 << n) - 1 - mask) as u32
}
