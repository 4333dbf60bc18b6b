// The degree of a lookup's constraint.

#![tactic(auto)]

pub mod constraint_degree;
pub mod lookups;
pub mod sums;
pub mod tuples;
