// The tables of a call, and what one of their lookups adds on one row and on all rows.

#![tactic(auto)]

pub mod accumulate;
pub mod rows;
pub mod starts;
pub mod tables;
