//! Antichains in columns: minimal energies, eight at a time.
#![tactic(auto)]

mod antichain;
mod buffer;
mod columns;
mod copies;
mod edits;
mod lanes;
mod members;

pub use antichain::Antichain;
pub use columns::Columns;
