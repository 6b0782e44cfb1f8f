ghost use Rattle.std.specs.Prelude.{◌≡◌, ◌≢◌, ◌<◌, ◌≤◌, [], false, length, string_bytes, OnOk, OnErr};
ghost use Rattle.spectro_spec.specs.System.{Label};
ghost use Rattle.spectro_spec.specs.Weighing.{IsWeighing, weight_of};
ghost use Rattle.spectro_weights.specs.Setting.{is_set, with_weight};

use indexmap::IndexMap;
use std::alloc::{AllocError, Global};
use std::marker::Model;

/// How many labels may have a weight of their own.
pub const MAX_LABELS: usize = 65_536;

/// What each label weighs. One that is not set weighs 1.
#[derive(Drop)]
pub struct Weights {
    weights: IndexMap<String, u8>,
}

impl Model for Weights {
    ghost use Rattle.spectro_spec.specs.Weighing.{Weighing};
    ghost use Rattle.spectro_weights.specs.Setting.{AreWeights};
    ghost use Rattle.spectro_weights.specs.Entries.{weighing_of};

    ghost Value = { Weighing };

    ghost view = { λ kept. weighing_of kept.weights.entries };

    ghost invariant = { λ kept. AreWeights (weighing_of kept.weights.entries) };
}

impl Weights {
    /// Every label weighs 1.
    pub fn new(alloc: Global) -> Weights
        ensures { result ≡ [] }
    {
        Weights {
            weights: IndexMap::new(alloc),
        }
    }

    /// What the label weighs.
    pub fn of(&self, label: &str) -> u8
        ensures value { result ≡ weight_of self.now label.now }
        ensures weighing { IsWeighing self.now }
    {
        self.weights.get(label).copied().unwrap_or(1)
    }

    /// Whether the label was set.
    pub fn has_label(&self, label: &str) -> bool
        ensures { result ≡ is_set self.now label.now }
    {
        self.weights.contains_key(label)
    }

    /// How many labels were set.
    pub fn label_count(&self) -> u32
        ensures value { result ≡ length self.now }
        ensures bound { result ≤ MAX_LABELS }
    {
        self.weights.len() as u32
    }

    /// Gives the label the weight in place of the one that it had. A new label goes behind the others.
    pub fn set(&mut self, label: &str, weight: u8) -> Result<(), AllocError>
        requires room { is_set self.old label.now ≡ false → length self.old < MAX_LABELS }
        ensures list { OnOk result (self.new ≡ with_weight self.old label.now weight) }
        ensures value { OnOk result (weight_of self.new label.now ≡ weight) }
        ensures others { OnOk result ((other : Label) → other ≢ label.now → weight_of self.new other ≡ weight_of self.old other) }
        ensures err { OnErr result (self.new ≡ self.old) }
    {
        let alloc = *self.weights.allocator();
        self.insert(String::from_str(alloc, label)?, weight)
    }

    /// Gives the label the weight, as `set` does, and keeps the label.
    pub(crate) fn insert(&mut self, label: String, weight: u8) -> Result<(), AllocError>
        requires room { is_set self.old (string_bytes label) ≡ false → length self.old < MAX_LABELS }
        ensures list { OnOk result (self.new ≡ with_weight self.old (string_bytes label) weight) }
        ensures err { OnErr result (self.new ≡ self.old) }
    {
        self.weights.insert(label, weight)?;
        Ok(())
    }
}
