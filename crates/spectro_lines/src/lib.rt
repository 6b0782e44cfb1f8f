//! Texts of lines: read whole or in pieces, line by line, up to the first fault.
#![tactic(auto)]

mod error;
mod feed;
mod grammar;
mod line;
mod reader;

pub use error::{LineError, LineFault};
pub use feed::Feed;
pub use grammar::Grammar;
pub use reader::read;
