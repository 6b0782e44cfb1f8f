ghost use Rattle.std.specs.Prelude.{◌≡◌, ◌<◌, ◌≤◌, length, IfOk};
ghost use Rattle.spectro_solve.specs.Solving.{IsArenaOf};

use crate::samples::{BOTH_AND_EITHER, ONE_STEP, system};
use spectro_lts::Lts;
use spectro_pairs::{Arena, explore};
use spectro_solve::{Steps, Table, solve};
use spectro_weights::Weights;
use std::alloc::{AllocError, Global};
use std::marker::Brand;
use std::process::Abort;
use std::sync::ledger::{Blank, Ledger};
use std::test::Fail;

// The table of the arena.
fn table<L: Ledger>(
    alloc: Global,
    lts: &Lts,
    arena: &Arena,
    blank: Blank,
) -> Result<Table, AllocError>
    requires arena { IsArenaOf lts.now arena.now }
    requires name { blank.name ≡ L.name }
    requires parts { blank.parts ≡ L.parts }
    requires some { 0 < blank.parts }
    ensures { IfOk result (λ table. length table.rows ≡ length arena.now.pairs) }
{
    let mut steps = Steps::<L>::new(blank);
    solve(alloc, lts, arena, &mut steps)
}

// What is solved where state p is to be told from q, under weights of 1. The start is the first pair.
fn solved(alloc: Global, lts: &Lts, p: u32, q: u32) -> Result<Table, Fail>
    requires p { p < lts.now.states }
    requires q { q < lts.now.states }
    ensures { IfOk result (λ table. 0 < length table.rows) }
{
    let Ok(arena) = explore(alloc, lts, &Weights::new(alloc), &[(p, q)], 1000) else {
        return Err(Fail::new("not explored"));
    };
    prove!(arena.pair_count() >= 1);
    Ok(table::<Brand>(alloc, lts, &arena, Blank::new(1))?)
}

fn one_step(alloc: Global, p: u32, q: u32) -> Result<Table, Fail>
    requires p { p < 3 }
    requires q { q < 3 }
    ensures { IfOk result (λ table. 0 < length table.rows) }
{
    let lts = system(alloc, 3, 0, &ONE_STEP)?;
    solved(alloc, &lts, p, q)
}

fn both_and_either(alloc: Global, p: u32, q: u32) -> Result<Table, Fail>
    requires p { p < 7 }
    requires q { q < 7 }
    ensures { IfOk result (λ table. 0 < length table.rows) }
{
    let lts = system(alloc, 7, 0, &BOTH_AND_EITHER)?;
    solved(alloc, &lts, p, q)
}

// The start has these least prices.
fn assert_start(rt: &impl Abort, table: &Table, want: &[[u32; 7]])
    requires { 0 < length table.now.rows }
{
    let least = table.least(0);
    assert_eq!(rt; least.len(), want.len());
    for (k, parts) in want.iter().enumerate() {
        assert_eq!(rt; least.item(k).parts, *parts, "at {k}");
    }
}

// There were so many generations that changed a list, evaluations, and prices in all lists.
fn assert_counts(
    rt: &impl Abort,
    table: &Table,
    generations: u32,
    evaluations: u64,
    energies: u64,
) {
    assert_eq!(rt; table.generations(), generations);
    assert_eq!(rt; table.evaluations(), evaluations);
    assert_eq!(rt; table.energies(), energies);
}

// By hand: three pairs are evaluated, then the one that has the second as a follower, and twice the two that follow one another.
#[test]
fn counts_the_evaluations_of_each_generation(rt: HostRuntime) -> Result<(), Fail> {
    let there = one_step(rt.alloc(), 0, 2)?;
    assert_counts(&rt, &there, 3, 8, 3);
    assert_start(&rt, &there, &[[1, 1, 0, 0, 0, 0, 1]]);
    Ok(())
}

#[test]
fn finds_what_a_step_costs_that_is_not_there(rt: HostRuntime) -> Result<(), Fail> {
    let back = one_step(rt.alloc(), 2, 0)?;
    assert_start(&rt, &back, &[[1, 2, 0, 0, 1, 1, 1]]);
    Ok(())
}

#[test]
fn finds_two_least_prices_that_are_apart(rt: HostRuntime) -> Result<(), Fail> {
    let there = both_and_either(rt.alloc(), 4, 0)?;
    assert_start(&rt, &there, &[[2, 2, 1, 1, 0, 0, 2], [2, 3, 0, 0, 1, 2, 2]]);
    Ok(())
}

#[test]
fn finds_what_an_early_choice_costs(rt: HostRuntime) -> Result<(), Fail> {
    let back = both_and_either(rt.alloc(), 0, 4)?;
    assert_start(&rt, &back, &[[2, 2, 0, 0, 1, 1, 2]]);
    Ok(())
}
