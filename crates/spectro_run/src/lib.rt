//! The commands: the order of refusals, what each command writes, and the messages.
//!
//! A command is a chain of stages. Each stage is one function that gives a value or the status that stops the run: `texts`
//! has those of the texts, and each file of `commands` its own. What a command has to write is a type with `Written`, and
//! `finish` writes it for all of them.
#![tactic(auto)]

mod commands;
mod cost;
mod message;
mod outcomes;
mod output;
mod runner;
mod status;
mod texts;
mod written;

pub use outcomes::{a_command_has_an_outcome, a_command_has_at_most_one_outcome};
pub use runner::run;
pub use status::{BadText, Kind, Status, Which};
