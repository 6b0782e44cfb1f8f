ghost use Rattle.std.specs.Prelude.{◌≡◌};
ghost use Rattle.std.specs.List.Sorted.{IsStrictlyIncreasing};
ghost use Rattle.spectro_spec.specs.System.{rising};

use smallvec::SmallVec;
use std::marker::Model;

/// A set of states, rising. Up to 8 of them take no allocation.
#[derive(Drop)]
pub struct StateSet {
    states: SmallVec<u32, 8>,
}

impl Model for StateSet {
    ghost use Rattle.std.specs.Prelude.{List, ℕ};
    ghost use Rattle.std.specs.List.Sorted.{IsStrictlyIncreasing};

    ghost Value = { List ℕ };

    ghost view = { λ s. s.states.items };

    ghost invariant = { λ s. IsStrictlyIncreasing s.states.items };
}

impl StateSet {
    /// The states, rising, each once.
    pub fn as_slice(&self) -> &[u32]
        ensures value { result.now ≡ self.now }
        ensures rises { IsStrictlyIncreasing result.now }
    {
        self.states.as_slice()
    }

    // The set of the states.
    pub(crate) fn of(states: SmallVec<u32, 8>) -> StateSet
        ensures { result ≡ rising states.items }
    {
        let mut states = states;
        states.sort_unstable();
        states.dedup();
        StateSet { states }
    }
}
