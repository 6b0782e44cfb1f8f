ghost use Rattle.std.specs.Prelude.{◌≡◌, ◌<◌, ◌≤◌, ◌^◌, ◌↔◌, [], length, slice_get, Some, All, Contains, IfOk, OnOk};
ghost use Rattle.spectro_game.specs.Reached.{StandsAt};
ghost use Rattle.spectro_theory.specs.Reaching.{StandOnce};
ghost use Rattle.spectro_build.specs.Needs.{DoKeysRise, IsPut};
ghost use Rattle.spectro_build.specs.declared.key.Key.{Key};

use crate::key::Key;
use indexmap::IndexSet;
use std::alloc::{AllocError, Global};
use std::marker::Model;

/// Keys of what is needed, each once.
#[derive(Drop)]
pub(crate) struct Needs {
    keys: IndexSet<Key>,
}

impl Model for Needs {
    ghost use Rattle.std.specs.Prelude.{List};
    ghost use Rattle.spectro_build.specs.declared.key.Key.{Key};

    ghost Value = { List Key };

    ghost view = { λ needs. needs.keys.keys };
}

impl Needs {
    /// No needs. It takes no memory.
    pub(crate) fn new(alloc: Global) -> Needs
        ensures { result ≡ [] }
    {
        Needs {
            keys: IndexSet::new(alloc),
        }
    }

    /// How many there are.
    pub(crate) fn len(&self) -> usize
        ensures value { result ≡ length self.now }
        ensures once { StandOnce self.now }
    {
        self.keys.len()
    }

    /// The key at place `i`.
    pub(crate) fn key(&self, i: usize) -> Key
        requires { i < length self.now }
        ensures { StandsAt self.now i result }
    {
        self.keys[i]
    }

    /// Puts the key last, unless it is there.
    pub(crate) fn put(&mut self, key: Key) -> Result<(), AllocError>
        ensures { OnOk result (IsPut self.old key self.new) }
    {
        self.keys.insert(key)?;
        Ok(())
    }

    /// Puts the keys in order.
    pub(crate) fn sort(&mut self) -> Result<(), AllocError>
        ensures members { OnOk result ((key : Key) → Contains self.old key ↔ Contains self.new key) }
        ensures order { OnOk result (DoKeysRise self.new) }
    {
        self.keys.sort_unstable()?;
        Ok(())
    }

    /// The place of the key.
    pub(crate) fn number(&self, key: Key) -> usize
        requires { Contains self.now key }
        ensures { StandsAt self.now result key }
    {
        match self.keys.get_index_of(&key) {
            Some(number) => number,
            None => unreachable!(),
        }
    }
}
