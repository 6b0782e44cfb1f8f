//! The systems of a demo: a choice that is made after `n` steps, and one that is made with the first of them.
#![tactic(auto)]

mod systems;

pub use systems::{MAX_NUMBER, demo_left, demo_right};
