// The tests of several tables (refusals 1 to 5 and 9), and the groups of lookups: which lookups are in one, what they add, and the check
// of all groups in order, each in a workspace of zeros, up to the first refusal.

#![tactic(auto)]

pub mod accumulate;
pub mod buses;
pub mod check;
pub mod ranges;
pub mod tests;
