//! What each command does, one file a command.

pub mod compare;
pub mod demo;
pub mod eval;
pub mod price;
pub mod rewrite;
pub mod size;
