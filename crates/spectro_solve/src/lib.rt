//! The solver: the least prices of each reached pair, by generations of marked pairs.
#![tactic(auto)]

mod choices;
mod clauses;
mod evaluation;
mod fresh;
mod generations;
mod marks;
mod observations;
mod pulls;
mod splits;
mod steps;
mod table;

pub use evaluation::evaluate;
pub use generations::solve;
pub use spectro_lanes::Antichain;
pub use steps::Steps;
pub use table::Table;
