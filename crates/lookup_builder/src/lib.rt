// Building lookups from interactions: the weights, the lookups' words, the tests, and the entry point.

#![tactic(auto)]

pub mod answer;
pub mod builder;
pub mod fits;
pub mod locals;
pub mod weights;
pub mod words;
