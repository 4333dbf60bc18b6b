// Generation: the tests of the entry point around the rows of the permutation trace; and the row reader.

#![tactic(auto)]

pub mod generate_permutation;
