ghost use Rattle.std.specs.Prelude.{◌≡◌, ◌≢◌, ◌<◌, ◌≤◌, ◌↔◌, [], ◌∷◌, length, OnOk};
ghost use Rattle.spectro_game.specs.Rows.{listed_at};
ghost use Rattle.spectro_pairs.specs.Arenas.{set_at};
ghost use Rattle.spectro_solve.specs.Added.{CanBeConjoined, IsAdded};
ghost use Rattle.spectro_solve.specs.Clauses.{AffordsNegative, AffordsPositive, IsClauseList};
ghost use Rattle.spectro_solve.specs.Evaluations.{AtPair};
ghost use Rattle.spectro_solve.specs.Tables.{HaveRoom};

use crate::pulls::add_clauses;
use spectro_energy::Update;
use spectro_lanes::Antichain;
use spectro_pairs::Arena;
use std::alloc::AllocError;

/// Makes the list of what a clause costs that tells the state of pair `k` from the member of its set at place `i`.
pub(crate) fn list_clause(
    arena: &Arena,
    lists: &[Antichain],
    k: u32,
    i: u32,
    clause: &mut Antichain,
) -> Result<(), AllocError>
    requires pair { k < length arena.now.pairs }
    requires place { i < length (set_at arena.now.pairs k) }
    requires few { length (set_at arena.now.pairs k) ≤ 19 }
    requires lists { length lists.now ≡ length arena.now.pairs }
    requires room { HaveRoom lists.now }
    ensures clause { OnOk result (AtPair arena.now k (λ system weighing x. IsClauseList (listed_at arena.now.pairs lists.now) x i clause.new)) }
    ensures low { OnOk result (CanBeConjoined clause.new) }
{
    clause.clear();
    add_positive(arena, lists, k, i, clause)?;
    add_negative(arena, lists, k, i, clause)
}

// Adds what a positive clause costs: it is true at the state and false at the member.
fn add_positive(
    arena: &Arena,
    lists: &[Antichain],
    k: u32,
    i: u32,
    clause: &mut Antichain,
) -> Result<(), AllocError>
    requires pair { k < length arena.now.pairs }
    requires place { i < length (set_at arena.now.pairs k) }
    requires few { length (set_at arena.now.pairs k) ≤ 19 }
    requires lists { length lists.now ≡ length arena.now.pairs }
    requires room { HaveRoom lists.now }
    ensures added { OnOk result (AtPair arena.now k (λ system weighing x.
        IsAdded (AffordsPositive (listed_at arena.now.pairs lists.now) x i) clause.old clause.new)) }
    ensures low { OnOk result (CanBeConjoined clause.old → CanBeConjoined clause.new) }
{
    let alone = arena.subset(k, 1 << i);
    add_clauses(clause, &lists[alone as usize], Update::Positive)
}

// Adds what a negative clause costs: it is true at the member, which is another state, and false at the state.
fn add_negative(
    arena: &Arena,
    lists: &[Antichain],
    k: u32,
    i: u32,
    clause: &mut Antichain,
) -> Result<(), AllocError>
    requires pair { k < length arena.now.pairs }
    requires place { i < length (set_at arena.now.pairs k) }
    requires lists { length lists.now ≡ length arena.now.pairs }
    requires room { HaveRoom lists.now }
    ensures added { OnOk result (AtPair arena.now k (λ system weighing x.
        IsAdded (AffordsNegative (listed_at arena.now.pairs lists.now) x i) clause.old clause.new)) }
    ensures low { OnOk result (CanBeConjoined clause.old → CanBeConjoined clause.new) }
{
    match arena.swap(k, i) {
        Some(turned) => add_clauses(clause, &lists[turned as usize], Update::Negative),
        None => Ok(()),
    }
}
