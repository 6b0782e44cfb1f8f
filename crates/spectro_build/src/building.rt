ghost use Rattle.std.specs.Prelude.{◌≡◌, All, IfOk};
ghost use Rattle.spectro_game.specs.Rows.{listed_at};
ghost use Rattle.spectro_solve.specs.Solving.{IsArenaOf};
ghost use Rattle.spectro_build.specs.Built.{IsBuilt};
ghost use Rattle.spectro_build.specs.Wanted.{FromEachWeighing, IsListedIn, IsSolvedFrom, needs_of};

use crate::built::Built;
use crate::choosing::Chooser;
use crate::needs::Needs;
use crate::numbers::numbers_of;
use crate::wanted::{Wanted, keys_of};
use crate::writing::write_nodes;
use spectro_lts::Lts;
use spectro_pairs::Arena;
use spectro_solve::Table;
use std::alloc::{AllocError, Global};

/// The sheet of formulas that distinguish the wanted pairs at just the wanted prices, with the number of the node of each.
///
/// The table is solved from the arena, and the arena is explored from the system.
pub fn build(
    alloc: Global,
    lts: &Lts,
    arena: &Arena,
    table: &Table,
    wanted: &[Wanted],
) -> Result<Built, AllocError>
    requires source { IsArenaOf lts.now arena.now }
    requires solved { IsSolvedFrom arena.now table.now.rows }
    requires listed { All (IsListedIn table.now.rows) wanted.now }
    ensures built { IfOk result (λ built. FromEachWeighing lts.now arena.now (λ weighing.
        IsBuilt weighing lts.now arena.now.pairs (listed_at arena.now.pairs table.now.rows) (needs_of arena.now.pairs wanted.now)
        built.sheet built.nodes)) }
{
    // An arena has few pairs, so what one step makes of a price stays a number of 32 bits.
    prove!(arena.pair_count() <= 500_000);
    let mut chooser = Chooser::new(alloc);
    let keys = keys_of(alloc, table, wanted)?;
    let mut needs = Needs::of(alloc, &keys)?;
    needs.close(arena, table, &mut chooser)?;
    needs.sort()?;
    let sheet = write_nodes(alloc, lts, arena, table, &needs, &mut chooser)?;
    let nodes = numbers_of(alloc, &needs, &keys)?;
    Ok(Built { sheet, nodes })
}
