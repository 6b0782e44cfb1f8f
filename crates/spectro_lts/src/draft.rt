ghost use Rattle.std.specs.Prelude.{◌≡◌, ◌<◌, ◌≤◌, [], ◌∷◌, ◌++◌, length, map, string_bytes, IfOk, OnOk, OnErr};
ghost use Rattle.std.specs.List.{list_any};
ghost use Rattle.std.specs.Str.{bytes_eq};
ghost use Rattle.indexmap.specs.IndexSet.{insert_key};
ghost use Rattle.spectro_spec.specs.System.{IsLabel};
ghost use Rattle.spectro_lts.specs.Labels.{labels_of};
ghost use Rattle.spectro_lts.specs.Numbered.{GivesNumber};

use crate::ranks::ranks;
use crate::table::Table;
use crate::{Lts, Step};
use indexmap::IndexSet;
use std::alloc::{AllocError, Global};
use std::marker::Model;

/// How many states a system has at most: two systems stand side by side, each with half as many.
pub const MAX_STATES: u32 = 131_072;

/// How many steps a system has at most.
pub const MAX_STEPS: u32 = 2_000_000;

/// How many labels a system has at most.
pub const MAX_LABELS: u32 = 131_072;

/// A system to which steps are added one by one.
#[derive(Drop)]
pub struct Draft {
    states: u32,
    initial: u32,
    labels: IndexSet<String>,
    steps: Vec<Step>,
}

impl Model for Draft {
    ghost use Rattle.spectro_spec.specs.System.{System};
    ghost use Rattle.spectro_lts.specs.Numbered.{steps_of, IsNumbered};

    ghost Value = { System };

    ghost view = { λ d. record { states = d.states; initial = d.initial; steps = steps_of d.labels.keys d.steps.items } };

    ghost invariant = { λ d. IsNumbered d.states d.initial d.labels.keys d.steps.items };
}

impl Draft {
    /// A draft without steps.
    pub fn new(alloc: Global, states: u32, initial: u32) -> Result<Draft, AllocError>
        requires few { states ≤ MAX_STATES }
        requires in_range { initial < states }
        ensures { IfOk result (λ draft. draft ≡ record { states = states; initial = initial; steps = [] }) }
    {
        Ok(Draft {
            states,
            initial,
            labels: IndexSet::new(alloc),
            steps: Vec::new(alloc),
        })
    }

    /// Adds a step at the end.
    pub fn add(&mut self, from: u32, label: &str, to: u32) -> Result<(), AllocError>
        requires from_in_range { from < self.old.states }
        requires to_in_range { to < self.old.states }
        requires few_steps { length self.old.steps < MAX_STEPS }
        requires few_labels { length (labels_of self.old.steps) < MAX_LABELS }
        requires label { IsLabel label.now }
        ensures ok { OnOk result (self.new ≡ record self.old { steps = self.old.steps ++ record { source = from; label = label.now; target = to } ∷ [] }) }
        ensures err { OnErr result (self.new ≡ self.old) }
    {
        self.put(from, label, to)
    }

    /// Adds a step at the end, where there is room for its label or the label stands already.
    pub(crate) fn put(&mut self, from: u32, label: &str, to: u32) -> Result<(), AllocError>
        requires from_in_range { from < self.old.states }
        requires to_in_range { to < self.old.states }
        requires few_steps { length self.old.steps < MAX_STEPS }
        requires few_labels { length (labels_of (self.old.steps ++ record { source = from; label = label.now; target = to } ∷ [])) ≤ MAX_LABELS }
        requires label { IsLabel label.now }
        ensures ok { OnOk result (self.new ≡ record self.old { steps = self.old.steps ++ record { source = from; label = label.now; target = to } ∷ [] }) }
        ensures err { OnErr result (self.new ≡ self.old) }
    {
        self.steps.reserve(1)?;
        let alloc = *self.steps.allocator();
        let label = number_label(alloc, &mut self.labels, label)?;
        self.steps.push_reserved(Step { from, label, to });
        Ok(())
    }

    /// How many steps there are, repeats counted.
    pub fn step_count(&self) -> u32
        ensures value { result ≡ length self.now.steps }
        ensures bound { result ≤ MAX_STEPS }
    {
        self.steps.len() as u32
    }

    /// How many labels there are.
    pub fn label_count(&self) -> u32
        ensures value { result ≡ length (labels_of self.now.steps) }
        ensures bound { result ≤ MAX_LABELS }
    {
        self.labels.len() as u32
    }

    /// Whether some step has the label.
    pub fn has_label(&self, label: &str) -> bool
        ensures { result ≡ list_any (λ step. bytes_eq label.now step.label) self.now.steps }
    {
        self.labels.contains(label)
    }

    /// The system of the draft.
    pub fn finish(self) -> Result<Lts, AllocError>
        ensures { IfOk result (λ lts. lts ≡ self) }
    {
        let alloc = *self.steps.allocator();
        let ranks = ranks(alloc, &self.labels)?;
        let table = Table::build(alloc, self.states, ranks, &self.steps)?;
        Ok(Lts {
            states: self.states,
            initial: self.initial,
            labels: self.labels,
            steps: self.steps,
            table,
        })
    }
}

// The number of the label, which goes behind the others if it is new.
fn number_label(
    alloc: Global,
    labels: &mut IndexSet<String>,
    label: &str,
) -> Result<u32, AllocError>
    requires { length (insert_key bytes_eq (map string_bytes labels.old.keys) label.now) ≤ MAX_LABELS }
    ensures ok { IfOk result (GivesNumber labels.old.keys label.now labels.new.keys) }
    ensures err { OnErr result (labels.new.keys ≡ labels.old.keys) }
{
    if let Some(no) = labels.get_index_of(label) {
        return Ok(no as u32);
    }
    let (no, _) = labels.insert_full(String::from_str(alloc, label)?)?;
    Ok(no as u32)
}
