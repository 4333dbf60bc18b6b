// The expression table: its words and limits, the refusals, and the definitions of the window, the degrees and the
// values of the nodes.
// Refusals as numbers.

#![tactic(auto)]

pub mod choices;
pub mod node;
pub mod numbers;
pub mod refusal;
pub mod sizes;
pub mod table;
pub mod words;
