//! Sheets: formulas whose parts are shared.
#![tactic(auto)]

mod clauses;
mod node;
mod sheet;

pub use clauses::clauses_come_in_order;
pub use node::{Clause, Node};
pub use sheet::Sheet;
