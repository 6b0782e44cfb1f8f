ghost use Rattle.std.specs.Prelude.{◌≡◌, ◌<◌, ◌++◌, [], ◌∷◌, ℕ, length, All, Contains, IfOk, OnOk};
ghost use Rattle.spectro_game.specs.Reached.{StandsAt};
ghost use Rattle.spectro_game.specs.Rows.{listed_at};
ghost use Rattle.spectro_theory.specs.Reaching.{StandOnce};
ghost use Rattle.spectro_lts.specs.Labels.{labels_of};
ghost use Rattle.spectro_hml.specs.Clauses.{ClausesRise};
ghost use Rattle.spectro_hml.specs.Sheets.{SheetNode};
ghost use Rattle.spectro_pairs.specs.Arenas.{FromEach};
ghost use Rattle.spectro_solve.specs.Solving.{IsArenaOf};
ghost use Rattle.spectro_solve.specs.Tables.{HaveRoom};
ghost use Rattle.spectro_build.specs.Kept.{IsOneOfLabels, keys_of_clauses, keys_taken};
ghost use Rattle.spectro_build.specs.Keys.{IsKey, needs_at};
ghost use Rattle.spectro_build.specs.Needed.{AreClosed};
ghost use Rattle.spectro_build.specs.Needs.{DoKeysRise};
ghost use Rattle.spectro_build.specs.Wanted.{FromEachWeighing, IsSolvedFrom};
ghost use Rattle.spectro_build.specs.Written.{AreNodesOf, AreNumbered, IsKeptNode};
ghost use Rattle.spectro_build.specs.declared.key.Key.{Key};

use crate::choosing::{Chooser, Chosen};
use crate::clauses::SignedKey;
use crate::needs::Needs;
use spectro_hml::{Clause, Sheet, clauses_come_in_order};
use spectro_lts::Lts;
use spectro_pairs::Arena;
use spectro_solve::Table;
use std::alloc::{AllocError, Global};

/// The nodes of the needs, which are in order: each by its choice, which names nodes before it.
pub(crate) fn write_nodes(
    alloc: Global,
    lts: &Lts,
    arena: &Arena,
    table: &Table,
    needs: &Needs,
    chooser: &mut Chooser,
) -> Result<Sheet, AllocError>
    requires source { IsArenaOf lts.now arena.now }
    requires solved { IsSolvedFrom arena.now table.now.rows }
    requires room { HaveRoom table.now.rows }
    requires keys { All (IsKey table.now.rows) needs.now }
    requires order { DoKeysRise needs.now }
    requires closed { FromEach arena.now (λ system weighing. AreClosed weighing system (listed_at arena.now.pairs table.now.rows)
        (needs_at arena.now.pairs table.now.rows needs.now)) }
    ensures nodes { IfOk result (λ sheet. FromEachWeighing lts.now arena.now (λ weighing. AreNodesOf weighing lts.now
        (listed_at arena.now.pairs table.now.rows) (needs_at arena.now.pairs table.now.rows needs.now) (length needs.now) sheet)) }
{
    let mut sheet = Sheet::new(alloc);
    let mut clauses = Vec::new(alloc);
    for i in 0..needs.len() {
        let chosen = chooser.choose(arena, table, needs.key(i))?;
        write_node(
            lts,
            needs,
            chosen,
            &chooser.clauses,
            &mut clauses,
            &mut sheet,
        )?;
    }
    Ok(sheet)
}

// Writes the node of the choice. The list of its clauses is lent.
fn write_node(
    lts: &Lts,
    needs: &Needs,
    chosen: Chosen,
    signed: &[SignedKey],
    clauses: &mut Vec<Clause>,
    sheet: &mut Sheet,
) -> Result<(), AllocError>
    requires label { IsOneOfLabels (length (labels_of lts.now.steps)) chosen }
    requires needed { (key : Key) → Contains (keys_taken signed.now chosen) key → Contains needs.now key }
    requires before { (key : Key) (k : ℕ) → Contains (keys_taken signed.now chosen) key → StandsAt needs.now k key → k < length sheet.old }
    requires apart { StandOnce (keys_taken signed.now chosen) }
    requires once { StandOnce needs.now }
    ensures node { OnOk result ((node : SheetNode) × (sheet.new ≡ sheet.old ++ node ∷ []) × IsKeptNode lts.now needs.now signed.now chosen node) }
{
    match chosen {
        Chosen::Observed(seen) => {
            sheet.push_see(lts.label(seen.label), needs.number(seen.next))?;
        }
        Chosen::Split => {
            number_clauses(needs, signed, clauses)?;
            sheet.push_all(clauses)?;
        }
    }
    Ok(())
}

// Makes the clauses with the numbers of their nodes, in order.
fn number_clauses(
    needs: &Needs,
    signed: &[SignedKey],
    clauses: &mut Vec<Clause>,
) -> Result<(), AllocError>
    requires needed { (key : Key) → Contains (keys_of_clauses signed.now) key → Contains needs.now key }
    requires apart { StandOnce (keys_of_clauses signed.now) }
    requires once { StandOnce needs.now }
    ensures rise { OnOk result (ClausesRise clauses.new.items) }
    ensures numbered { OnOk result (AreNumbered needs.now signed.now clauses.new.items) }
{
    clauses_come_in_order();
    clauses.clear();
    for clause in signed {
        clauses.push(Clause {
            positive: clause.positive,
            node: needs.number(clause.key),
        })?;
    }
    clauses.sort_unstable();
    Ok(())
}
