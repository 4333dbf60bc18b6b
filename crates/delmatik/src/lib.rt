// Functions for other languages: numbers and slices of words in, a refusal's number and details out. Each forwards to an entry.
// The choices of a call come first. `field` is 1 for p = 2^31 - 2^27 + 1 with X⁴ = 11, or 2 for p = 2^31 - 2^24 + 1 with X⁴ = 3: all words of
// the call are of that field. `profile` is 1, the limits of the cabinet. `rule`, of generation and constraints, is 1, the tuple rule. Any
// other number is refusal 1, before anything else is read. Powers and inverses have no limits and take the field alone; what refuses nothing
// (a row of a trace, a count by its node) takes none of them.
// Parameters stay numbers and slices, and the number of the refusal is returned: this is the C interface.

#![tactic(auto)]

pub mod challenges;
pub mod check_lookups;
pub mod count;
pub mod element;
pub mod eval_all;
pub mod from_interactions;
pub mod generate_permutation;
pub mod pack_same_bus;
pub mod protocol;
pub mod types;
