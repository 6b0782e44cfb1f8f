//! The method: the game on pairs of a state and a set, its backward step and its generations, as definitions alone.
#![tactic(auto)]
