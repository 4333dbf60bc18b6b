// The checks over several tables: the terminals' sum and the height bound.

#![tactic(auto)]

pub mod protocol;
