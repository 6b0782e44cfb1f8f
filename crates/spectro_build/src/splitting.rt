ghost use Rattle.std.specs.Prelude.{◌≡◌, ◌<◌, ◌≤◌, ◌↔◌, ◌++◌, length, option_map, All, IfSome, IsTrue, OnOk};
ghost use Rattle.spectro_energy.specs.Energy.{price_of};
ghost use Rattle.spectro_game.specs.Rows.{listed_at};
ghost use Rattle.spectro_pairs.specs.Arenas.{set_at};
ghost use Rattle.spectro_solve.specs.Evaluations.{AtPair};
ghost use Rattle.spectro_solve.specs.Tables.{HaveRoom};
ghost use Rattle.spectro_build.specs.Chosen.{first_split_at, split_at};
ghost use Rattle.spectro_build.specs.Keys.{IsKey};
ghost use Rattle.spectro_build.specs.Splits.{AreKeyed, AreRightClauses, Lacks, clause_outside, clauses_of_split, left_clauses};

use crate::clauses::{SignedKey, right_clause};
use crate::fitting::first_fitting;
use crate::key::Key;
use crate::role::Role;
use spectro_energy::Energy;
use spectro_pairs::Arena;
use spectro_solve::Table;
use std::alloc::AllocError;

/// A split: the members of its left part as a mask, and what the clause that refutes them has to distinguish. There is none
/// for mask 0.
#[derive(Clone, Copy)]
pub(crate) struct Split {
    pub(crate) mask: u32,
    pub(crate) left: Option<Key>,
}

/// Makes the list of the clauses that each refute one member of the set of pair `k`, where one fits `e`.
pub(crate) fn list_right_clauses(
    arena: &Arena,
    table: &Table,
    k: u32,
    e: Energy,
    others: &mut Vec<Option<SignedKey>>,
) -> Result<(), AllocError>
    requires pair { k < length arena.now.pairs }
    requires rows { length table.now.rows ≡ length arena.now.pairs }
    requires room { HaveRoom table.now.rows }
    ensures count { OnOk result (length others.new.items ≡ length (set_at arena.now.pairs k)) }
    ensures few { OnOk result (length others.new.items ≤ 19) }
    ensures clauses { OnOk result (AreRightClauses arena.now table.now.rows k (price_of e.parts) others.new.items) }
    ensures keys { OnOk result (AreKeyed table.now.rows others.new.items) }
{
    others.clear();
    let size = arena.set(k).len() as u32;
    for i in 0..size {
        others.push(right_clause(arena, table, k, i, e))?;
    }
    Ok(())
}

/// The first split of pair `k` that fits `e`, where the clauses of its members are given.
pub(crate) fn first_split(
    arena: &Arena,
    table: &Table,
    k: u32,
    e: Energy,
    others: &[Option<SignedKey>],
) -> Option<Split>
    requires pair { k < length arena.now.pairs }
    requires rows { length table.now.rows ≡ length arena.now.pairs }
    requires room { HaveRoom table.now.rows }
    requires few { length others.now ≤ 19 }
    requires count { length others.now ≡ length (set_at arena.now.pairs k) }
    requires clauses { AreRightClauses arena.now table.now.rows k (price_of e.parts) others.now }
    ensures first { AtPair arena.now k (λ system weighing x. first_split_at (listed_at arena.now.pairs table.now.rows) x (price_of e.parts)
        ≡ option_map (λ split. split_at arena.now.pairs table.now.rows (clauses_of_split others.now split)) result) }
    ensures key { IfSome result (λ split. IfSome split.left (IsKey table.now.rows)) }
{
    for mask in 0..1 << others.len() {
        if lacks(others, mask) {
            continue;
        }
        if mask == 0 {
            return Some(Split { mask, left: None });
        }
        let together = arena.subset(k, mask);
        if let Some(key) = first_fitting(table, together, Role::Deepest, e) {
            return Some(Split {
                mask,
                left: Some(key),
            });
        }
    }
    None
}

// Whether some member that is not in the mask has no clause.
fn lacks(others: &[Option<SignedKey>], mask: u32) -> bool
    requires { length others.now ≤ 19 }
    ensures { IsTrue result ↔ Lacks others.now mask }
{
    for (i, other) in others.iter().enumerate() {
        if other.is_none() && (mask >> i) & 1 == 0 {
            return true;
        }
    }
    false
}

/// Makes the list of the clauses of the split: that of its left part, and those of the members that are not in its mask.
pub(crate) fn list_clauses(
    split: Split,
    others: &[Option<SignedKey>],
    clauses: &mut Vec<SignedKey>,
) -> Result<(), AllocError>
    requires { length others.now ≤ 19 }
    ensures { OnOk result (clauses.new.items ≡ clauses_of_split others.now split) }
{
    clauses.clear();
    add_left(split.left, clauses)?;
    for (i, other) in others.iter().enumerate() {
        add_outside(split.mask, i, *other, clauses)?;
    }
    Ok(())
}

// Adds the clause that refutes the left part, where there is one.
fn add_left(left: Option<Key>, clauses: &mut Vec<SignedKey>) -> Result<(), AllocError>
    ensures { OnOk result (clauses.new.items ≡ clauses.old.items ++ left_clauses left) }
{
    let Some(key) = left else {
        return Ok(());
    };
    clauses.push(SignedKey {
        positive: true,
        key,
    })?;
    Ok(())
}

// Adds the clause of the member at place `i`, where there is one and the member is not in the mask.
fn add_outside(
    mask: u32,
    i: usize,
    other: Option<SignedKey>,
    clauses: &mut Vec<SignedKey>,
) -> Result<(), AllocError>
    requires { i < 32 }
    ensures { OnOk result (clauses.new.items ≡ clauses.old.items ++ clause_outside mask i other) }
{
    if (mask >> i) & 1 == 1 {
        return Ok(());
    }
    let Some(clause) = other else {
        return Ok(());
    };
    clauses.push(clause)?;
    Ok(())
}
