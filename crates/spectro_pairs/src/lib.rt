//! Reached pairs: the pairs of a state and a state set that starts reach, by number, with their followers and predecessors.
#![tactic(auto)]

mod arena;
mod error;
mod exploration;
mod known;
mod lattices;
mod pairs;
mod reaching;
mod subsets;

pub use arena::{Arena, Observation};
pub use error::ExploreError;
pub use reaching::explore;
