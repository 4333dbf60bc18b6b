// Sums of products that are reduced after every four products, not after each.
// These functions serve the crates above: they require that p and the words are as those crates have tested.
// Many quotients with one inverse. This function serves the crates above: it requires that p, w and the words are as those crates have tested.

#![tactic(auto)]

pub mod division;
pub mod dot;
