// Packing: the entry point.

#![tactic(auto)]

pub mod pack_same_bus;
