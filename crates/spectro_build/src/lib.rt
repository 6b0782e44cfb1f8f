//! The builder: the sheet of formulas that distinguish pairs at their least prices.
#![tactic(auto)]

mod building;
mod built;
mod choosing;
mod clauses;
mod closing;
mod fitting;
mod key;
mod laws;
mod needs;
mod numbers;
mod observing;
mod role;
mod splitting;
mod wanted;
mod writing;

pub use building::build;
pub use built::{Built, NodeList};
pub use laws::{
    a_table_builds_one_sheet, built_nodes_are_a_sheet, built_nodes_are_exact, choices_descend,
    choices_take_what_is_listed, listed_prices_have_a_choice, listed_prices_have_a_sheet,
    needs_are_least, places_tell_the_order, solved_tables_build_one_sheet,
    splits_take_each_pair_once,
};
pub use wanted::Wanted;
