// The lookups of a table: their words, and the tests on them and on a whole table, refusals 1 to 5 and 9.

#![tactic(auto)]

pub mod buses;
pub mod refusals;
pub mod sizes;
pub mod starts;
pub mod table;
pub mod tests;
pub mod types;
