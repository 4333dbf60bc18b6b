// Prefixes that keep buses apart.

#![tactic(auto)]

pub mod challenges;
