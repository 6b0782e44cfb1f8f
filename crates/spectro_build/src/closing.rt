ghost use Rattle.std.specs.Prelude.{[], All, Contains, IfOk, OnOk};
ghost use Rattle.spectro_game.specs.Rows.{listed_at};
ghost use Rattle.spectro_pairs.specs.Arenas.{FromEach};
ghost use Rattle.spectro_solve.specs.Solving.{IsExplored};
ghost use Rattle.spectro_solve.specs.Tables.{HaveRoom};
ghost use Rattle.spectro_build.specs.Kept.{keys_of_clauses, keys_taken};
ghost use Rattle.spectro_build.specs.Keys.{IsKey, needs_at};
ghost use Rattle.spectro_build.specs.Needed.{AreNeeded};
ghost use Rattle.spectro_build.specs.Needs.{ArePut};
ghost use Rattle.spectro_build.specs.Wanted.{IsSolvedFrom};
ghost use Rattle.spectro_build.specs.declared.key.Key.{Key};

use crate::choosing::{Chooser, Chosen};
use crate::clauses::SignedKey;
use crate::key::Key;
use crate::needs::Needs;
use spectro_pairs::Arena;
use spectro_solve::Table;
use std::alloc::{AllocError, Global};

impl Needs {
    /// The keys, each once.
    pub(crate) fn of(alloc: Global, keys: &[Key]) -> Result<Needs, AllocError>
        ensures { IfOk result (λ needs. ArePut [] keys.now needs) }
    {
        let mut needs = Needs::new(alloc);
        for key in keys {
            needs.put(*key)?;
        }
        Ok(needs)
    }

    /// Puts last what the choice for each takes, in the order in which it is found.
    pub(crate) fn close(
        &mut self,
        arena: &Arena,
        table: &Table,
        chooser: &mut Chooser,
    ) -> Result<(), AllocError>
        requires source { IsExplored arena.now }
        requires solved { IsSolvedFrom arena.now table.now.rows }
        requires room { HaveRoom table.now.rows }
        requires keys { All (IsKey table.now.rows) self.old }
        ensures keys { OnOk result (All (IsKey table.now.rows) self.new) }
        ensures kept { OnOk result ((key : Key) → Contains self.old key → Contains self.new key) }
        ensures needed { OnOk result (FromEach arena.now (λ system weighing. AreNeeded weighing system (listed_at arena.now.pairs table.now.rows)
            (needs_at arena.now.pairs table.now.rows self.old) (needs_at arena.now.pairs table.now.rows self.new))) }
    {
        for i in 0..usize::MAX {
            if i >= self.len() {
                return Ok(());
            }
            let chosen = chooser.choose(arena, table, self.key(i))?;
            self.take(chosen, &chooser.clauses)?;
        }
        prove!(self.len() <= usize::MAX);
        Ok(())
    }

    // Puts what the choice takes. Where it is a split, these are its clauses.
    fn take(&mut self, chosen: Chosen, clauses: &[SignedKey]) -> Result<(), AllocError>
        ensures { OnOk result (ArePut self.old (keys_taken clauses.now chosen) self.new) }
    {
        match chosen {
            Chosen::Observed(seen) => self.put(seen.next),
            Chosen::Split => self.put_all(clauses),
        }
    }

    // Puts the keys of the clauses.
    fn put_all(&mut self, clauses: &[SignedKey]) -> Result<(), AllocError>
        ensures { OnOk result (ArePut self.old (keys_of_clauses clauses.now) self.new) }
    {
        for clause in clauses {
            self.put(clause.key)?;
        }
        Ok(())
    }
}
