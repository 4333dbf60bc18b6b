// The constraints of a trace: one lookup's on one row, by its numerator and its common denominator, as the crate's
// `compute_combined_sum_terms` and `compute_exclusive_terms` (compute), then those of a row and of all rows (eval_row).
// These functions require what the crates above have tested.

#![tactic(auto)]

pub mod compute;
pub mod eval_row;
