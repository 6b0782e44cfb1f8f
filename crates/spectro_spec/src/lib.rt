//! What the product claims: systems, formulas, truth, prices, notions and least prices, as definitions alone.
#![tactic(auto)]
