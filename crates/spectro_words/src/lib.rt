//! The words of the command line, read as commands.
#![tactic(auto)]

mod command;
mod demo;
mod forms;
mod laws;
mod limit;
mod numbers;
mod options;

pub use command::{Command, command_of};
pub use laws::{commands_are_filled_forms, words_are_at_most_one_command};
pub use limit::DEFAULT_LIMIT;
