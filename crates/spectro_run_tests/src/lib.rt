//! Runs of the program, worked by hand, over devices in memory.
#![tactic(auto)]

#[cfg(test)]
mod runs;
