ghost use Rattle.std.specs.Prelude.{◌≡◌, ◌<◌, ◌≤◌, length, option_map, true, false, IfSome, All, OnOk};
ghost use Rattle.spectro_energy.specs.Energy.{price_of};
ghost use Rattle.spectro_game.specs.Rows.{listed_at};
ghost use Rattle.spectro_pairs.specs.Arenas.{set_at};
ghost use Rattle.spectro_solve.specs.Tables.{HaveRoom};
ghost use Rattle.spectro_build.specs.Choices.{right_clause};
ghost use Rattle.spectro_build.specs.Chosen.{AtMember, clause_at, negative_clause_at, positive_clause_at};
ghost use Rattle.spectro_build.specs.Keys.{IsKey};

use crate::fitting::first_fitting;
use crate::key::Key;
use crate::role::Role;
use spectro_energy::Energy;
use spectro_pairs::Arena;
use spectro_solve::Table;

/// A clause: its sign, and what its formula has to distinguish.
#[derive(Clone, Copy)]
pub(crate) struct SignedKey {
    pub(crate) positive: bool,
    pub(crate) key: Key,
}

/// The clause that refutes the member at place `i` of the set of pair `k` alone, where one fits `e`: the positive one, or
/// else the negative one.
pub(crate) fn right_clause(
    arena: &Arena,
    table: &Table,
    k: u32,
    i: u32,
    e: Energy,
) -> Option<SignedKey>
    requires pair { k < length arena.now.pairs }
    requires member { i < length (set_at arena.now.pairs k) }
    requires few { length (set_at arena.now.pairs k) ≤ 19 }
    requires rows { length table.now.rows ≡ length arena.now.pairs }
    requires room { HaveRoom table.now.rows }
    ensures value { AtMember arena.now k i (λ p q. right_clause (listed_at arena.now.pairs table.now.rows) p (price_of e.parts) q
        ≡ option_map (clause_at arena.now.pairs table.now.rows) result) }
    ensures key { IfSome result (λ clause. IsKey table.now.rows clause.key) }
{
    match positive_clause(arena, table, k, i, e) {
        Some(clause) => Some(clause),
        None => negative_clause(arena, table, k, i, e),
    }
}

// The positive clause that refutes the member alone, where one fits.
fn positive_clause(arena: &Arena, table: &Table, k: u32, i: u32, e: Energy) -> Option<SignedKey>
    requires pair { k < length arena.now.pairs }
    requires member { i < length (set_at arena.now.pairs k) }
    requires few { length (set_at arena.now.pairs k) ≤ 19 }
    requires rows { length table.now.rows ≡ length arena.now.pairs }
    requires room { HaveRoom table.now.rows }
    ensures value { AtMember arena.now k i (λ p q. positive_clause_at (listed_at arena.now.pairs table.now.rows) (price_of e.parts) p q
        ≡ option_map (clause_at arena.now.pairs table.now.rows) result) }
    ensures key { IfSome result (λ clause. IsKey table.now.rows clause.key) }
{
    let alone = arena.subset(k, 1 << i);
    let key = first_fitting(table, alone, Role::Positive, e)?;
    Some(SignedKey {
        positive: true,
        key,
    })
}

// The negative one.
fn negative_clause(arena: &Arena, table: &Table, k: u32, i: u32, e: Energy) -> Option<SignedKey>
    requires pair { k < length arena.now.pairs }
    requires member { i < length (set_at arena.now.pairs k) }
    requires rows { length table.now.rows ≡ length arena.now.pairs }
    requires room { HaveRoom table.now.rows }
    ensures value { AtMember arena.now k i (λ p q. negative_clause_at (listed_at arena.now.pairs table.now.rows) (price_of e.parts) p q
        ≡ option_map (clause_at arena.now.pairs table.now.rows) result) }
    ensures key { IfSome result (λ clause. IsKey table.now.rows clause.key) }
{
    let turned = arena.swap(k, i)?;
    let key = first_fitting(table, turned, Role::Negative, e)?;
    Some(SignedKey {
        positive: false,
        key,
    })
}
