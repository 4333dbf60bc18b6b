// Counts: a signed multiplicity with a bound on its magnitude.

#![tactic(auto)]

pub mod count;
