ghost use Rattle.std.specs.Prelude.{◌≡◌, ◌||◌, IfOk, is_err};
ghost use Rattle.spectro_io.specs.Faults.{HasCause};
ghost use Rattle.spectro_io.specs.Plans.{fails_next, after_call};

use crate::Failed;
use std::alloc::{AllocError, Global};
use std::marker::Model;

/// Which calls of a device fail, and how many were made and failed.
#[derive(Drop)]
pub struct Plan {
    fails: Vec<u64>,
    made: u64,
    faults: u64,
}

impl Model for Plan {
    ghost use Rattle.spectro_io.specs.Plans as spec;

    ghost Value = { spec.Plan };

    ghost view = { λ p. record { fails = p.fails.items; made = p.made; faults = p.faults } };
}

impl Plan {
    pub fn new(alloc: Global, fails: &[u64]) -> Result<Plan, AllocError>
        ensures { IfOk result (λ plan. plan ≡ record { fails = fails.now; made = 0; faults = 0 }) }
    {
        Ok(Plan {
            fails: fails.to_vec(alloc)?,
            made: 0,
            faults: 0,
        })
    }

    /// Counts a call, which fails by the plan or because it is refused.
    pub fn call(&mut self, refused: bool) -> Result<(), Failed>
        ensures fails { is_err result ≡ (refused || fails_next self.old) }
        ensures after { self.new ≡ after_call self.old (is_err result) }
        ensures cause { HasCause self.old.faults self.new.faults result }
    {
        self.made = self.made.saturating_add(1);
        if refused || self.fails.contains(&self.made) {
            self.faults = self.faults.saturating_add(1);
            return Err(Failed);
        }
        Ok(())
    }

    pub fn faults(&self) -> u64
        ensures { result ≡ self.now.faults }
    {
        self.faults
    }
}
