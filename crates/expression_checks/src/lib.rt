// The tests of an expression table: refusals 1 to 4.

#![tactic(auto)]

pub mod degrees;
pub mod fits;
pub mod nodes;
