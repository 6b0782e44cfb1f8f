//! How prices are written.
#![tactic(auto)]

mod price;

pub use price::put_price;
