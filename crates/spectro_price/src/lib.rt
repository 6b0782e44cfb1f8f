//! Prices: what the formula of each node of a sheet costs.
#![tactic(auto)]

mod pricing;

pub use pricing::{MAX_NODES, prices};
