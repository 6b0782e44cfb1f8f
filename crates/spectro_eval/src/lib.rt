//! At which states the formulas of a sheet are true: a table that is filled node by node.
#![tactic(auto)]

mod row;
mod steps;
mod truth;

pub use truth::Truth;
