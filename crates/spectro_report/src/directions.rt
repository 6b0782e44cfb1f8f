ghost use Rattle.std.specs.Prelude.{◌≡◌, ◌+◌, ◌<◌, ◌++◌, length, map, All, IfOk};
ghost use Rattle.spectro_game.specs.Rows.{listed_at};
ghost use Rattle.spectro_rows.specs.Rows.{row_at};
ghost use Rattle.spectro_solve.specs.Solving.{IsArenaOf};
ghost use Rattle.spectro_build.specs.Built.{IsBuilt};
ghost use Rattle.spectro_build.specs.Wanted.{FromEachWeighing, IsSolvedFrom, pair_of};
ghost use Rattle.spectro_report.specs.Comparisons.{AreBothTold};
ghost use Rattle.spectro_report.specs.Firsts.{AreSides, firsts_of, prices_found};
ghost use Rattle.spectro_report.specs.Reports.{needs_at, nodes_told, prices_told};
ghost use Rattle.spectro_report.specs.Verdicts.{verdict_of};

use crate::Verdict;
use crate::found::{ask, find};
use crate::told::tell;
use spectro_build::{Built, build};
use spectro_energy::Energy;
use spectro_hml::Sheet;
use spectro_hmltext::text_lengths;
use spectro_lts::Lts;
use spectro_notions::Notions;
use spectro_pairs::Arena;
use spectro_solve::Table;
use std::alloc::{AllocError, Global};

/// What is said of the notions for a pair and for the pair turned round, and the sheet of the formulas.
#[derive(Drop)]
pub(crate) struct Directions {
    pub(crate) forth: Vec<Verdict>,
    pub(crate) back: Vec<Verdict>,
    pub(crate) sheet: Sheet,
}

/// What the table says of the notions for the pairs of two numbers.
pub(crate) fn say(
    alloc: Global,
    lts: &Lts,
    arena: &Arena,
    table: &Table,
    notions: &Notions,
    pair: u32,
    turned: u32,
) -> Result<Directions, AllocError>
    requires source { IsArenaOf lts.now arena.now }
    requires solved { IsSolvedFrom arena.now table.now.rows }
    requires pair { pair < length arena.now.pairs }
    requires turned { turned < length arena.now.pairs }
    ensures forth { IfOk result (λ said. AreSides notions.now (row_at table.now.rows pair) said.sheet (map verdict_of said.forth.items)) }
    ensures back { IfOk result (λ said. AreSides notions.now (row_at table.now.rows turned) said.sheet (map verdict_of said.back.items)) }
    ensures built { IfOk result (λ said. FromEachWeighing lts.now arena.now (λ weighing.
        IsBuilt weighing lts.now arena.now.pairs (listed_at arena.now.pairs table.now.rows)
        (needs_at (pair_of arena.now.pairs pair) (prices_told (map verdict_of said.forth.items)) ++
        needs_at (pair_of arena.now.pairs turned) (prices_told (map verdict_of said.back.items)))
        said.sheet (nodes_told (map verdict_of said.forth.items) ++ nodes_told (map verdict_of said.back.items)))) }
{
    let firsts = find(alloc, table.least(pair), notions)?;
    let others = find(alloc, table.least(turned), notions)?;
    let mut wanted = Vec::new(alloc);
    ask(pair, &firsts, &mut wanted)?;
    let half = wanted.len();
    ask(turned, &others, &mut wanted)?;
    let built = build(alloc, lts, arena, table, &wanted)?;
    tell_both(alloc, built, half, &firsts, &others)
}

// The verdicts of both directions. Those from left to right have the first `half` of the nodes, and those from right to left
// the others.
fn tell_both(
    alloc: Global,
    built: Built,
    half: usize,
    firsts: &[Option<Energy>],
    others: &[Option<Energy>],
) -> Result<Directions, AllocError>
    requires numbers { All (λ k. k < length built.sheet) built.nodes }
    requires half { half ≡ length (prices_found (firsts_of firsts.now)) }
    requires count { length built.nodes ≡ half + length (prices_found (firsts_of others.now)) }
    ensures { IfOk result (AreBothTold built.sheet (firsts_of firsts.now) (firsts_of others.now) half built.nodes) }
{
    let lengths = text_lengths(alloc, &built.sheet)?;
    let (front, rest) = built.nodes.as_slice().split_at(half);
    let forth = tell(alloc, &built.sheet, &lengths, firsts, front)?;
    let back = tell(alloc, &built.sheet, &lengths, others, rest)?;
    Ok(Directions {
        forth,
        back,
        sheet: built.sheet,
    })
}
