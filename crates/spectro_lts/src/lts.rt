ghost use Rattle.std.specs.Prelude.{◌≡◌, ◌<◌, ◌≤◌, length, position, slice_get, Some};
ghost use Rattle.std.specs.Str.{bytes_eq};
ghost use Rattle.spectro_spec.specs.System.{IsWhole, IsLabel};
ghost use Rattle.spectro_lts.specs.Labels.{labels_of, IsStepAt};
ghost use Rattle.spectro_lts.specs.declared.draft.TheConstants.{MAX_LABELS, MAX_STATES, MAX_STEPS};

use crate::Step;
use crate::table::Table;
use indexmap::IndexSet;
use std::marker::Model;

/// A labelled transition system. Its labels are numbered from 0 in the order in which they first stand.
#[derive(Drop)]
pub struct Lts {
    pub(crate) states: u32,
    pub(crate) initial: u32,
    pub(crate) labels: IndexSet<String>,
    pub(crate) steps: Vec<Step>,
    pub(crate) table: Table,
}

impl Model for Lts {
    ghost use Rattle.spectro_spec.specs.System.{System};
    ghost use Rattle.spectro_lts.specs.Numbered.{steps_of};
    ghost use Rattle.spectro_lts.specs.Indexed.{IsIndexed};

    ghost Value = { System };

    ghost view = { λ l. record { states = l.states; initial = l.initial; steps = steps_of l.labels.keys l.steps.items } };

    ghost invariant = { λ l. IsIndexed l.states l.initial l.labels.keys l.steps.items l.table };
}

impl Lts {
    /// How many states there are. They are numbered from 0.
    pub fn states(&self) -> u32
        ensures value { result ≡ self.now.states }
        ensures bound { result ≤ MAX_STATES }
        ensures whole { IsWhole self.now }
    {
        self.states
    }

    /// The initial state.
    pub fn initial(&self) -> u32
        ensures value { result ≡ self.now.initial }
        ensures in_range { self.now.initial < self.now.states }
    {
        self.initial
    }

    /// How many steps there are, repeats counted.
    pub fn step_count(&self) -> u32
        ensures value { result ≡ length self.now.steps }
        ensures bound { result ≤ MAX_STEPS }
    {
        self.steps.len() as u32
    }

    /// The step at place `k`, in the order in which they were added.
    pub fn step(&self, k: u32) -> Step
        requires { k < length self.now.steps }
        ensures step { IsStepAt self.now.steps k result.from result.label result.to }
        ensures from { result.from < self.now.states }
        ensures to { result.to < self.now.states }
        ensures label { result.label < length (labels_of self.now.steps) }
    {
        self.steps[k as usize]
    }

    /// How many labels there are.
    pub fn label_count(&self) -> u32
        ensures value { result ≡ length (labels_of self.now.steps) }
        ensures bound { result ≤ MAX_LABELS }
    {
        self.labels.len() as u32
    }

    /// The label of the number.
    pub fn label(&self, no: u32) -> &str
        requires { no < length (labels_of self.now.steps) }
        ensures label { slice_get (labels_of self.now.steps) no ≡ Some result.now }
        ensures bound { IsLabel result.now }
    {
        self.labels[no as usize].as_str()
    }

    /// The number of the label. `None` exactly where no step has it.
    pub fn label_no(&self, label: &str) -> Option<u32>
        ensures { result ≡ position (bytes_eq label.now) (labels_of self.now.steps) }
    {
        let no = self.labels.get_index_of(label)?;
        Some(no as u32)
    }
}
