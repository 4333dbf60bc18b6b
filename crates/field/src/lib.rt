// Words below p, the prime of one of the two fields, and elements of four words with X⁴ = w.
// These functions serve the crates above: they require that p, w and the words are as those crates have tested.

#![tactic(auto)]

pub mod extension;
pub mod modulus;
pub mod word;
