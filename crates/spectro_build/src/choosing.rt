ghost use Rattle.std.specs.Prelude.{◌≡◌, ◌<◌, length, Some, All, IfOk};
ghost use Rattle.spectro_game.specs.Rows.{listed_at};
ghost use Rattle.spectro_lts.specs.Labels.{labels_of};
ghost use Rattle.spectro_pairs.specs.Arenas.{FromEach};
ghost use Rattle.spectro_solve.specs.Solving.{IsExplored};
ghost use Rattle.spectro_solve.specs.Tables.{HaveRoom};
ghost use Rattle.spectro_build.specs.Choices.{choice_at};
ghost use Rattle.spectro_build.specs.Keys.{IsKey, need_at};
ghost use Rattle.spectro_build.specs.Kept.{IsOneOfLabels, keys_taken, kept_choice};
ghost use Rattle.spectro_build.specs.Wanted.{IsSolvedFrom};

use crate::clauses::SignedKey;
use crate::key::Key;
use crate::observing::{Observed, first_observation};
use crate::splitting::{first_split, list_clauses, list_right_clauses};
use spectro_pairs::Arena;
use spectro_solve::Table;
use std::alloc::{AllocError, Global};

/// What is chosen for a need.
#[derive(Clone, Copy)]
pub(crate) enum Chosen {
    /// An observation.
    Observed(Observed),
    /// A split, whose clauses the chooser has.
    Split,
}

/// Chooses, in memory that is taken once.
#[derive(Drop)]
pub(crate) struct Chooser {
    // For each member of a set the clause that refutes it alone.
    others: Vec<Option<SignedKey>>,
    /// The clauses of the split that was chosen last.
    pub(crate) clauses: Vec<SignedKey>,
}

impl Chooser {
    /// It takes no memory.
    pub(crate) fn new(alloc: Global) -> Chooser {
        Chooser {
            others: Vec::new(alloc),
            clauses: Vec::new(alloc),
        }
    }

    /// Chooses for what the key stands for: the first observation that fits, else the first split that fits.
    pub(crate) fn choose(
        &mut self,
        arena: &Arena,
        table: &Table,
        key: Key,
    ) -> Result<Chosen, AllocError>
        requires source { IsExplored arena.now }
        requires solved { IsSolvedFrom arena.now table.now.rows }
        requires room { HaveRoom table.now.rows }
        requires key { IsKey table.now.rows key }
        ensures choice { IfOk result (λ chosen. FromEach arena.now (λ system weighing.
            choice_at weighing system (listed_at arena.now.pairs table.now.rows) (need_at arena.now.pairs table.now.rows key)
            ≡ Some (kept_choice system arena.now.pairs table.now.rows self.new.clauses.items chosen))) }
        ensures label { IfOk result (λ chosen. FromEach arena.now (λ system weighing. IsOneOfLabels (length (labels_of system.steps)) chosen)) }
        ensures keys { IfOk result (λ chosen. All (IsKey table.now.rows) (keys_taken self.new.clauses.items chosen)) }
    {
        let e = key.price(table);
        if let Some(seen) = first_observation(arena, table, key.pair, e) {
            return Ok(Chosen::Observed(seen));
        }
        list_right_clauses(arena, table, key.pair, e, &mut self.others)?;
        let Some(split) = first_split(arena, table, key.pair, e, &self.others) else {
            unreachable!()
        };
        list_clauses(split, &self.others, &mut self.clauses)?;
        Ok(Chosen::Split)
    }
}
