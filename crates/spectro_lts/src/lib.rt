//! Systems: states, and steps under labels that are numbered in the order in which they first stand.
#![tactic(auto)]

mod draft;
mod join;
mod lts;
mod ranks;
mod state_set;
mod step;
mod successors;
mod table;

pub use draft::{Draft, MAX_LABELS, MAX_STATES, MAX_STEPS};
pub use lts::Lts;
pub use state_set::StateSet;
pub use step::Step;
