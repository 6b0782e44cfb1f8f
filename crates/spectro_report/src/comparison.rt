ghost use Rattle.std.specs.Prelude.{◌≡◌, ◌≢◌, ◌<◌, ◌≤◌, [], ◌∷◌, length, IfOk, IfErr};
ghost use Rattle.spectro_game.specs.Pairs.{size};
ghost use Rattle.spectro_pairs.specs.Explored.{IsExploredFrom};
ghost use Rattle.spectro_solve.specs.Solving.{IsArenaOf};
ghost use Rattle.spectro_build.specs.Wanted.{IsSolvedFrom};
ghost use Rattle.spectro_report.specs.Comparisons.{IsComparison, IsComparisonIn};
ghost use Rattle.spectro_report.specs.Starts.{IsTooLarge, IsTurned, IsTwoStates};
ghost use Rattle.spectro_pairs.specs.declared.pairs.TheConstants.{MAX_LIMIT};

use crate::ReportError;
use crate::directions::{Directions, say};
use spectro_lts::Lts;
use spectro_notions::Notions;
use spectro_pairs::{Arena, ExploreError, explore};
use spectro_solve::{Steps, Table, solve};
use spectro_weights::Weights;
use std::alloc::{AllocError, Global};
use std::marker::Brand;
use std::sync::ledger::{Blank, Ledger};

/// What is found where two states are compared: how many pairs that reaches, how many positions and least prices these
/// have, and what is said of the notions.
#[derive(Drop)]
pub(crate) struct Comparison {
    pub(crate) pairs: u32,
    pub(crate) size: u32,
    pub(crate) energies: u64,
    pub(crate) said: Directions,
}

/// What is found where the first state is compared with the second.
pub(crate) fn compared(
    alloc: Global,
    lts: &Lts,
    weights: &Weights,
    notions: &Notions,
    start: (u32, u32),
    limit: u32,
) -> Result<Comparison, ReportError>
    requires first { start.0 < lts.now.states }
    requires second { start.1 < lts.now.states }
    requires apart { start.1 ≢ start.0 }
    requires limit { limit ≤ MAX_LIMIT }
    ensures found { IfOk result (IsComparison weights.now lts.now start.0 start.1 notions.now) }
    ensures size { IfOk result (λ found. found.size ≤ limit) }
    ensures limit { IfErr result (IsTooLarge lts.now start limit) }
{
    let arena = explored(alloc, lts, weights, start, limit)?;
    Ok(found(alloc, lts, &arena, notions)?)
}

// What is found in the arena of the first pair, which is of two states.
fn found(
    alloc: Global,
    lts: &Lts,
    arena: &Arena,
    notions: &Notions,
) -> Result<Comparison, AllocError>
    requires arena { IsArenaOf lts.now arena.now }
    requires apart { IsTwoStates arena.now.pairs }
    ensures found { IfOk result (IsComparisonIn lts.now arena.now notions.now) }
    ensures size { IfOk result (λ found. found.size ≡ size arena.now.pairs) }
{
    let table = solved::<Brand>(alloc, lts, arena, Blank::new(1))?;
    let said = say(alloc, lts, arena, &table, notions, 0, turned(arena))?;
    Ok(Comparison {
        pairs: arena.pair_count(),
        size: arena.size(),
        energies: table.energies(),
        said,
    })
}

// The pairs that the start reaches.
fn explored(
    alloc: Global,
    lts: &Lts,
    weights: &Weights,
    start: (u32, u32),
    limit: u32,
) -> Result<Arena, ReportError>
    requires first { start.0 < lts.now.states }
    requires second { start.1 < lts.now.states }
    requires limit { limit ≤ MAX_LIMIT }
    ensures explored { IfOk result (λ arena. IsExploredFrom lts.now weights.now (start ∷ []) arena) }
    ensures size { IfOk result (λ arena. size arena.pairs ≤ limit) }
    ensures limit { IfErr result (IsTooLarge lts.now start limit) }
{
    match explore(alloc, lts, weights, &[start], limit) {
        Ok(arena) => Ok(arena),
        Err(ExploreError::TooLarge { .. }) => Err(ReportError::TooLarge { limit }),
        Err(ExploreError::OutOfMemory) => Err(ReportError::OutOfMemory),
    }
}

// The least prices of each pair.
fn solved<L: Ledger>(
    alloc: Global,
    lts: &Lts,
    arena: &Arena,
    blank: Blank,
) -> Result<Table, AllocError>
    requires arena { IsArenaOf lts.now arena.now }
    requires name { blank.name ≡ L.name }
    requires parts { blank.parts ≡ L.parts }
    requires some { 0 < blank.parts }
    ensures { IfOk result (λ table. IsSolvedFrom arena.now table.rows) }
{
    let mut steps = Steps::<L>::new(blank);
    solve(alloc, lts, arena, &mut steps)
}

// The number of the first pair turned round, whose state is not the member of its set.
fn turned(arena: &Arena) -> u32
    requires { IsTwoStates arena.now.pairs }
    ensures turned { IsTurned arena.now.pairs result }
    ensures pair { result < length arena.now.pairs }
{
    match arena.swap(0, 0) {
        Some(pair) => pair,
        None => unreachable!(),
    }
}
