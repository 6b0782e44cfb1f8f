//! Antichains: minimal energies in a sorted vector.
#![tactic(auto)]

mod antichain;

pub use antichain::Antichain;
