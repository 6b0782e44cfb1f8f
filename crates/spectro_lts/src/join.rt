ghost use Rattle.std.specs.Prelude.{◌/◌, ◌≡◌, ◌+◌, ◌≤◌, ◌++◌, length, map, IfOk};
ghost use Rattle.spectro_spec.specs.System.{shifted, join};
ghost use Rattle.spectro_lts.specs.Labels.{labels_of};
ghost use Rattle.spectro_lts.specs.declared.draft.TheConstants.{MAX_LABELS, MAX_STATES, MAX_STEPS};

use crate::{Draft, Lts};
use std::alloc::{AllocError, Global};

impl Lts {
    /// The two systems side by side. The states of the right follow those of the left.
    pub fn join(alloc: Global, left: &Lts, right: &Lts) -> Result<Lts, AllocError>
        requires left_states { left.now.states ≤ MAX_STATES / 2 }
        requires left_steps { length left.now.steps ≤ MAX_STEPS / 2 }
        requires left_labels { length (labels_of left.now.steps) ≤ MAX_LABELS / 2 }
        requires right_states { right.now.states ≤ MAX_STATES / 2 }
        requires right_steps { length right.now.steps ≤ MAX_STEPS / 2 }
        requires right_labels { length (labels_of right.now.steps) ≤ MAX_LABELS / 2 }
        ensures { IfOk result (λ lts. lts ≡ join left.now right.now) }
    {
        let shift = left.states();
        let mut draft = Draft::new(alloc, shift + right.states(), left.initial())?;
        add_shifted(&mut draft, 0, left)?;
        add_shifted(&mut draft, shift, right)?;
        draft.finish()
    }
}

// Adds the steps of the system, with both ends of each moved up.
fn add_shifted(draft: &mut Draft, by: u32, lts: &Lts) -> Result<(), AllocError>
    requires few_states { draft.old.states ≤ MAX_STATES }
    requires in_range { by + lts.now.states ≤ draft.old.states }
    requires few_steps { length draft.old.steps + length lts.now.steps ≤ MAX_STEPS }
    requires few_labels { length (labels_of draft.old.steps) + length (labels_of lts.now.steps) ≤ MAX_LABELS }
    ensures { IfOk result (λ _. draft.new ≡ record draft.old { steps = draft.old.steps ++ map (shifted by) lts.now.steps }) }
{
    for k in 0..lts.step_count() {
        let step = lts.step(k);
        draft.put(by + step.from, lts.label(step.label), by + step.to)?;
    }
    Ok(())
}
