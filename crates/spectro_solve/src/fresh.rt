// What a generation evaluates was evaluated before, over lists of which most are still the same. So an evaluation begins with
// the old list of its pair, and adds what the fresh lists make: those that changed in the generation before.
ghost use Rattle.std.specs.Prelude.{ℕ, ◌≡◌, ◌+◌, ◌<◌, ◌≤◌, ◌^◌, ◌↔◌, false, IsTrue, length, All, OnOk};
ghost use Rattle.spectro_spec.specs.LeastPrices.{Covers};
ghost use Rattle.spectro_game.specs.Pairs.{observed};
ghost use Rattle.spectro_game.specs.Reached.{StandsAt};
ghost use Rattle.spectro_game.specs.Rows.{listed_at};
ghost use Rattle.spectro_energy.specs.Energy.{price_of};
ghost use Rattle.spectro_pairs.specs.Arenas.{set_at};
ghost use Rattle.spectro_pairs.specs.Interned.{IsPairAt};
ghost use Rattle.spectro_rows.specs.Rows.{row_at};
ghost use Rattle.spectro_solve.specs.Added.{IsAdded};
ghost use Rattle.spectro_solve.specs.Evaluations.{AtPair, IsEvaluated};
ghost use Rattle.spectro_solve.specs.Fresh.{
  AffordsFreshAmong,
  AffordsFreshAt,
  AffordsTurned,
  AreSplitsAdded,
  AreSplitsAddedToFloor,
  HasStaleSplits,
  HasStaleSubsets,
  HasStaleSwaps,
  IsAddedToFloor,
  IsFloor,
  IsFreshNegated,
  IsNegatedBy,
  IsStaleSwap,
  KeepsAt,
};
ghost use Rattle.spectro_solve.specs.Marks.{IsMarked};
ghost use Rattle.spectro_solve.specs.Tables.{HasRoom, HaveRoom};

use crate::evaluation::Work;
use crate::marks::Marks;
use crate::pulls::add_pulled;
use crate::splits::add_splits;
use spectro_energy::{Energy, Update};
use spectro_lanes::Antichain;
use spectro_pairs::Arena;
use std::alloc::AllocError;

/// Whether the list of pair `k` is sure to stay: it reaches the floor, or no list changed in the generation before.
pub(crate) fn is_settled(arena: &Arena, lists: &[Antichain], fresh: &Marks, k: u32) -> bool
    requires pair { k < length arena.now.pairs }
    requires lists { length lists.now ≡ length arena.now.pairs }
    requires fresh { length fresh.now ≡ length arena.now.pairs }
    requires kept { KeepsAt arena.now lists.now fresh.now k }
    ensures { IsTrue result → IsEvaluated arena.now lists.now k (row_at lists.now k) }
{
    let list = &lists[k as usize];
    if list.len() == 0 {
        return fresh.numbers().is_empty() && !arena.set(k).is_empty();
    }
    list.covers(floor_at(arena, k))
}

/// Makes the backward step at pair `k` over the lists, of which the old one of the pair has all but what the fresh ones make.
pub(crate) fn evaluate_fresh(
    arena: &Arena,
    lists: &[Antichain],
    fresh: &Marks,
    k: u32,
    work: &mut Work,
    made: &mut Antichain,
) -> Result<(), AllocError>
    requires pair { k < length arena.now.pairs }
    requires lists { length lists.now ≡ length arena.now.pairs }
    requires room { HaveRoom lists.now }
    requires fresh { length fresh.now ≡ length arena.now.pairs }
    requires kept { KeepsAt arena.now lists.now fresh.now k }
    ensures { OnOk result (IsEvaluated arena.now lists.now k made.new) }
{
    made.assign(&lists[k as usize])?;
    let floor = floor_at(arena, k);
    add_fresh_observations(arena, lists, fresh, k, floor, made)?;
    add_splits_to_floor(arena, lists, fresh, k, floor, work, made)?;
    // That a list rises and that its members are apart is known from a call of `len`.
    prove!(made.len() <= usize::MAX);
    Ok(())
}

// No energy at pair `k` is below this one: a conjunction and, to tell its state from some others, an observation of the least
// weight.
fn floor_at(arena: &Arena, k: u32) -> Energy
    requires pair { k < length arena.now.pairs }
    ensures { IsPairAt arena.now.pairs k (λ x. IsFloor arena.now.weights x.set (price_of result.parts)) }
{
    let (observations, weight) = if arena.set(k).is_empty() {
        (0, 0)
    } else {
        (1, u32::from(arena.least_weight()))
    };
    Energy {
        parts: [observations, 1, 0, 0, 0, 0, weight],
    }
}

// Adds what the observations of pair `k` make that lead to fresh pairs, until the floor is reached.
fn add_fresh_observations(
    arena: &Arena,
    lists: &[Antichain],
    fresh: &Marks,
    k: u32,
    floor: Energy,
    made: &mut Antichain,
) -> Result<(), AllocError>
    requires pair { k < length arena.now.pairs }
    requires lists { length lists.now ≡ length arena.now.pairs }
    requires room { HaveRoom lists.now }
    requires fresh { length fresh.now ≡ length arena.now.pairs }
    ensures { OnOk result (AtPair arena.now k (λ system weighing x.
        IsAddedToFloor (price_of floor.parts) (AffordsFreshAmong weighing system arena.now lists.now fresh.now x (length (observed system x)))
        made.old made.new)) }
{
    for i in 0..arena.observation_count(k) {
        if add_fresh_observation(arena, lists, fresh, k, i, made)? && made.covers(floor) {
            return Ok(());
        }
    }
    Ok(())
}

// Adds what one observation makes, if it leads to a fresh pair. Answers whether it does.
fn add_fresh_observation(
    arena: &Arena,
    lists: &[Antichain],
    fresh: &Marks,
    k: u32,
    i: u32,
    made: &mut Antichain,
) -> Result<bool, AllocError>
    requires pair { k < length arena.now.pairs }
    requires place { i < length (row_at arena.now.labels k) }
    requires lists { length lists.now ≡ length arena.now.pairs }
    requires room { HaveRoom lists.now }
    requires fresh { length fresh.now ≡ length arena.now.pairs }
    ensures { OnOk result (AtPair arena.now k (λ system weighing x.
        IsAdded (AffordsFreshAt weighing system arena.now lists.now fresh.now x i) made.old made.new)) }
{
    let observation = arena.observation(k, i);
    if !fresh.is_marked(observation.pair) {
        return Ok(false);
    }
    let update = Update::Observe {
        weight: observation.weight,
    };
    add_pulled(made, &lists[observation.pair as usize], update)?;
    Ok(true)
}

// Adds what the splits of the set of pair `k` make, unless the floor is reached.
fn add_splits_to_floor(
    arena: &Arena,
    lists: &[Antichain],
    fresh: &Marks,
    k: u32,
    floor: Energy,
    work: &mut Work,
    made: &mut Antichain,
) -> Result<(), AllocError>
    requires pair { k < length arena.now.pairs }
    requires lists { length lists.now ≡ length arena.now.pairs }
    requires room { HaveRoom lists.now }
    requires fresh { length fresh.now ≡ length arena.now.pairs }
    ensures { OnOk result (AtPair arena.now k (λ system weighing x.
        AreSplitsAddedToFloor (price_of floor.parts) arena.now lists.now fresh.now x made.old made.new)) }
{
    if made.covers(floor) {
        return Ok(());
    }
    add_fresh_splits(arena, lists, fresh, k, work, made)
}

// Adds what the splits of the set of pair `k` make, if one of the pairs that follow by them is fresh.
fn add_fresh_splits(
    arena: &Arena,
    lists: &[Antichain],
    fresh: &Marks,
    k: u32,
    work: &mut Work,
    made: &mut Antichain,
) -> Result<(), AllocError>
    requires pair { k < length arena.now.pairs }
    requires lists { length lists.now ≡ length arena.now.pairs }
    requires room { HaveRoom lists.now }
    requires fresh { length fresh.now ≡ length arena.now.pairs }
    ensures { OnOk result (AtPair arena.now k (λ system weighing x. AreSplitsAdded arena.now lists.now fresh.now x made.old made.new)) }
{
    let size = arena.set(k).len();
    if size == 1 {
        return add_turned(arena, lists, fresh, k, made);
    }
    if size != 0 && are_splits_stale(arena, fresh, k) {
        return Ok(());
    }
    add_splits(arena, lists, k, &mut work.clauses, &mut work.chosen, made)
}

// Of a set of one member, adds what a negative clause makes of the pair of the two turned round, if it is fresh. What else its
// splits make is more than the list of the pair itself.
fn add_turned(
    arena: &Arena,
    lists: &[Antichain],
    fresh: &Marks,
    k: u32,
    made: &mut Antichain,
) -> Result<(), AllocError>
    requires pair { k < length arena.now.pairs }
    requires one { length (set_at arena.now.pairs k) ≡ 1 }
    requires lists { length lists.now ≡ length arena.now.pairs }
    requires room { HaveRoom lists.now }
    requires fresh { length fresh.now ≡ length arena.now.pairs }
    ensures { OnOk result (AtPair arena.now k (λ system weighing x. IsAdded (AffordsTurned arena.now lists.now fresh.now x) made.old made.new)) }
{
    match arena.swap(k, 0) {
        Some(turned) => add_if_fresh(lists, fresh, turned, made),
        None => Ok(()),
    }
}

// Adds the conjunctions of a negative clause over each member of the list of the pair, if it is fresh.
fn add_if_fresh(
    lists: &[Antichain],
    fresh: &Marks,
    pair: u32,
    made: &mut Antichain,
) -> Result<(), AllocError>
    requires pair { pair < length lists.now }
    requires room { HaveRoom lists.now }
    requires fresh { length fresh.now ≡ length lists.now }
    ensures { OnOk result (IsAdded (IsFreshNegated lists.now fresh.now pair) made.old made.new) }
{
    if !fresh.is_marked(pair) {
        return Ok(());
    }
    add_negated(made, &lists[pair as usize])
}

// Adds the conjunctions of a negative clause over each member.
fn add_negated(made: &mut Antichain, from: &Antichain) -> Result<(), AllocError>
    requires { All HasRoom from.now }
    ensures { OnOk result (IsAdded (IsNegatedBy from.now) made.old made.new) }
{
    for k in 0..from.len() {
        let clause = from
            .item(k)
            .inverse(Update::Negative)
            .inverse(Update::Other);
        made.insert(clause.inverse(Update::Conjoin))?;
    }
    Ok(())
}

// Whether no pair that follows pair `k` by a split is fresh.
fn are_splits_stale(arena: &Arena, fresh: &Marks, k: u32) -> bool
    requires pair { k < length arena.now.pairs }
    requires fresh { length fresh.now ≡ length arena.now.pairs }
    ensures { IsTrue result → AtPair arena.now k (λ system weighing x. HasStaleSplits arena.now fresh.now x) }
{
    let size = arena.set(k).len() as u32;
    are_subsets_stale(arena, fresh, k, size) && are_swaps_stale(arena, fresh, k, size)
}

// Whether no pair of the state of pair `k` and a subset of its set is fresh.
fn are_subsets_stale(arena: &Arena, fresh: &Marks, k: u32, size: u32) -> bool
    requires pair { k < length arena.now.pairs }
    requires size { size ≡ length (set_at arena.now.pairs k) }
    requires few { size ≤ 19 }
    requires fresh { length fresh.now ≡ length arena.now.pairs }
    ensures { IsTrue result → AtPair arena.now k (λ system weighing x. HasStaleSubsets arena.now.pairs fresh.now x (2 ^ size)) }
{
    for mask in 1..1 << size {
        if fresh.is_marked(arena.subset(k, mask)) {
            return false;
        }
    }
    true
}

// Whether no pair of a member of the set of pair `k` and its state is fresh.
fn are_swaps_stale(arena: &Arena, fresh: &Marks, k: u32, size: u32) -> bool
    requires pair { k < length arena.now.pairs }
    requires size { size ≡ length (set_at arena.now.pairs k) }
    requires fresh { length fresh.now ≡ length arena.now.pairs }
    ensures { IsTrue result → AtPair arena.now k (λ system weighing x. HasStaleSwaps arena.now.pairs fresh.now x size) }
{
    for i in 0..size {
        if is_swap_fresh(arena, fresh, k, i) {
            return false;
        }
    }
    true
}

// Whether the pair of the member at place i and the state of pair `k` is fresh.
fn is_swap_fresh(arena: &Arena, fresh: &Marks, k: u32, i: u32) -> bool
    requires pair { k < length arena.now.pairs }
    requires place { i < length (set_at arena.now.pairs k) }
    requires fresh { length fresh.now ≡ length arena.now.pairs }
    ensures { result ≡ false → AtPair arena.now k (λ system weighing x. IsStaleSwap arena.now.pairs fresh.now x i) }
{
    match arena.swap(k, i) {
        Some(turned) => fresh.is_marked(turned),
        None => false,
    }
}
