// The constraints over a whole trace: the tests of the entry point `eval_all` around the constraints of all rows.

#![tactic(auto)]

pub mod eval_all;
