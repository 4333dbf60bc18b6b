// One lookup on one row: beta's powers, the combined value and the denominator of a tuple (tuple, powers), the terms of its tuples and its
// fault (column), and where its own parts begin (starts); and what generation and the constraints have in common before the rows: the tests of
// refusals 1 to 5 (refusals), and the elements in the order of the rule (rule).
// These functions serve the crates above: they require what those crates have tested.

#![tactic(auto)]

pub mod column;
pub mod powers;
pub mod refusals;
pub mod rule;
pub mod starts;
pub mod tuple;
