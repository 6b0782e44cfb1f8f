ghost use Rattle.std.specs.Prelude.{◌≡◌, ◌<◌, ◌≤◌, length, IfOk};
ghost use Rattle.spectro_solve.specs.Solving.{IsArenaOf};
ghost use Rattle.spectro_build.specs.Wanted.{IsListedIn, IsSolvedFrom};

use crate::samples::{BOTH_AND_EITHER, ONE_STEP, system};
use spectro_build::{Built, Wanted, build};
use spectro_hml::Sheet;
use spectro_hmltext::print_sheet;
use spectro_io::MemSink;
use spectro_lts::Lts;
use spectro_pairs::{Arena, explore};
use spectro_solve::{Steps, Table, solve};
use spectro_weights::Weights;
use std::alloc::{AllocError, Global};
use std::marker::Brand;
use std::process::Abort;
use std::sync::ledger::{Blank, Ledger};
use std::test::Fail;

// The table of the arena.
fn table<L: Ledger>(
    alloc: Global,
    lts: &Lts,
    arena: &Arena,
    blank: Blank,
) -> Result<Table, AllocError>
    requires arena { IsArenaOf lts.now arena.now }
    requires name { blank.name ≡ L.name }
    requires parts { blank.parts ≡ L.parts }
    requires some { 0 < blank.parts }
    ensures { IfOk result (λ table. IsSolvedFrom arena.now table.rows) }
{
    let mut steps = Steps::<L>::new(blank);
    solve(alloc, lts, arena, &mut steps)
}

// The price at the place of the list of the pair.
fn listed(arena: &Arena, table: &Table, pair: u32, place: usize) -> Result<Wanted, Fail>
    requires { length table.now.rows ≡ length arena.now.pairs }
    ensures { IfOk result (IsListedIn table.now.rows) }
{
    if pair >= arena.pair_count() {
        return Err(Fail::new("no such pair"));
    }
    let prices = table.least(pair);
    if place >= prices.len() {
        return Err(Fail::new("not listed"));
    }
    Ok(Wanted {
        pair,
        price: prices.item(place),
    })
}

// What is built for two prices, each by the number of its pair and its place in the list of this.
fn build_two(
    alloc: Global,
    lts: &Lts,
    arena: &Arena,
    table: &Table,
    wanted: [(u32, usize); 2],
) -> Result<Built, Fail>
    requires arena { IsArenaOf lts.now arena.now }
    requires solved { IsSolvedFrom arena.now table.now.rows }
{
    let [(one, first), (other, second)] = wanted;
    let wanted = [
        listed(arena, table, one, first)?,
        listed(arena, table, other, second)?,
    ];
    Ok(build(alloc, lts, arena, table, &wanted)?)
}

// What is built so where state p is to be told from q, under weights of 1. The start is the first pair.
fn built(alloc: Global, lts: &Lts, p: u32, q: u32, wanted: [(u32, usize); 2]) -> Result<Built, Fail>
    requires p { p < lts.now.states }
    requires q { q < lts.now.states }
{
    let Ok(arena) = explore(alloc, lts, &Weights::new(alloc), &[(p, q)], 1000) else {
        return Err(Fail::new("not explored"));
    };
    let table = table::<Brand>(alloc, lts, &arena, Blank::new(1))?;
    build_two(alloc, lts, &arena, &table, wanted)
}

fn one_step(alloc: Global, wanted: [(u32, usize); 2]) -> Result<Built, Fail> {
    let lts = system(alloc, 3, 0, &ONE_STEP)?;
    built(alloc, &lts, 2, 0, wanted)
}

fn both_and_either(alloc: Global, p: u32, q: u32, wanted: [(u32, usize); 2]) -> Result<Built, Fail>
    requires p { p < 7 }
    requires q { q < 7 }
{
    let lts = system(alloc, 7, 0, &BOTH_AND_EITHER)?;
    built(alloc, &lts, p, q, wanted)
}

// The lines of the sheet.
fn lines_of(alloc: Global, sheet: &Sheet) -> Result<MemSink, AllocError> {
    let mut lines = MemSink::new(alloc, 200, 200, &[])?;
    let _ = print_sheet(sheet, &mut lines);
    Ok(lines)
}

// The sheet has these lines, and the wanted nodes have these numbers.
fn assert_built(
    rt: &impl Abort,
    alloc: Global,
    built: &Built,
    lines: &str,
    nodes: &[usize],
) -> Result<(), AllocError> {
    assert_eq!(rt; lines_of(alloc, &built.sheet)?.written(), lines.as_bytes());
    assert_eq!(rt; built.nodes.as_slice(), nodes);
    Ok(())
}

// Pair 0 is the state without steps against the other, and pair 1 that turned round.
#[test]
fn shares_the_step_that_is_there_with_the_one_that_is_not(rt: HostRuntime) -> Result<(), Fail> {
    let built = one_step(rt.alloc(), [(0, 0), (1, 0)])?;
    let lines = "0 all\n1 see \"a\" 0\n2 all -1\n";
    assert_built(&rt, rt.alloc(), &built, lines, &[2, 1])?;
    Ok(())
}

// By hand: pair 3 is the start turned round. Each of 1 and 2 refutes one of the states after a, and 3 both of them.
#[test]
fn tells_the_early_choice_and_the_late_one_apart(rt: HostRuntime) -> Result<(), Fail> {
    let built = both_and_either(rt.alloc(), 0, 4, [(0, 0), (3, 0)])?;
    let lines =
        "0 all\n1 see \"c\" 0\n2 see \"b\" 0\n3 all -1\n4 all +1 +2\n5 see \"a\" 3\n6 see \"a\" 4\n";
    assert_built(&rt, rt.alloc(), &built, lines, &[5, 6])?;
    Ok(())
}

// By hand: both prices of the start, of which the second allows no positive clause that observes.
#[test]
fn builds_a_node_for_each_price_of_a_pair(rt: HostRuntime) -> Result<(), Fail> {
    let built = both_and_either(rt.alloc(), 4, 0, [(0, 1), (0, 0)])?;
    let lines =
        "0 all\n1 see \"c\" 0\n2 see \"b\" 0\n3 all +1 +2\n4 all -1\n5 all -2\n6 see \"a\" 3\n7 all -4 -5\n8 see \"a\" 7\n";
    assert_built(&rt, rt.alloc(), &built, lines, &[8, 6])?;
    Ok(())
}
