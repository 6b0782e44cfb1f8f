//! Rows of items, one behind the other in one vector: put last, read by number, grouped by a key, and turned round.
#![tactic(auto)]

mod entry;
mod grouped;
mod rows;
mod sums;
mod turned;

pub use entry::Entry;
pub use grouped::{Keyed, group};
pub use rows::Rows;
pub use turned::turn;
