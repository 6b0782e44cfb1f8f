ghost use Rattle.std.specs.Prelude.{◌≡◌, ◌<◌, [], ◌∷◌, length, map, slice_get, All, Some, IfOk};
ghost use Rattle.std.specs.List.Sorted.{IsStrictlyIncreasing};
ghost use Rattle.spectro_spec.specs.System.{Label, post};
ghost use Rattle.spectro_spec.specs.LabelOrder.{labels_from};
ghost use Rattle.spectro_lts.specs.Labels.{labels_of, label_of};

use crate::{Lts, StateSet};
use smallvec::SmallVec;
use std::alloc::AllocError;

impl Lts {
    /// The numbers of the labels of the steps from `s`, each once, in the order of bytes of the labels.
    pub fn labels_of(&self, s: u32) -> &[u32]
        requires { s < self.now.states }
        ensures labels { map (label_of self.now.steps) result.now ≡ labels_from self.now.steps s }
        ensures in_range { All (λ label_no. label_no < length (labels_of self.now.steps)) result.now }
    {
        self.table.labels_of(s)
    }

    /// The targets of the steps from `s` under the label, rising, each once.
    pub fn successors(&self, s: u32, no: u32) -> &[u32]
        requires state { s < self.now.states }
        requires label { no < length (labels_of self.now.steps) }
        ensures value { result.now ≡ post self.now (s ∷ []) (label_of self.now.steps no) }
        ensures rises { IsStrictlyIncreasing result.now }
        ensures in_range { All (λ t. t < self.now.states) result.now }
    {
        self.table.successors(s, no)
    }

    /// The targets of the steps from `s` under its label at place `i` of `labels_of`, rising, each once.
    pub fn successors_at(&self, s: u32, i: usize) -> &[u32]
        requires state { s < self.now.states }
        requires place { i < length (labels_from self.now.steps s) }
        ensures value { (label : Label) → slice_get (labels_from self.now.steps s) i ≡ Some label → result.now ≡ post self.now (s ∷ []) label }
        ensures rises { IsStrictlyIncreasing result.now }
        ensures in_range { All (λ t. t < self.now.states) result.now }
    {
        self.table.successors_at(s, i)
    }

    /// The targets of the steps from the states of the set under the label.
    pub fn post(&self, set: &[u32], no: u32) -> Result<StateSet, AllocError>
        requires set { All (λ q. q < self.now.states) set.now }
        requires label { no < length (labels_of self.now.steps) }
        ensures value { IfOk result (λ states. states ≡ post self.now set.now (label_of self.now.steps no)) }
        ensures rises { IfOk result (λ states. IsStrictlyIncreasing states) }
        ensures in_range { IfOk result (λ states. All (λ t. t < self.now.states) states) }
    {
        let mut states = SmallVec::new(*self.steps.allocator());
        for q in set {
            states.extend_from_slice(self.successors(*q, no))?;
        }
        Ok(StateSet::of(states))
    }
}
