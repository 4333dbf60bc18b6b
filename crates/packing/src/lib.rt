// Packing, same-bus lookups share columns: the definitions, their laws, and the answers.

#![tactic(auto)]

pub mod answer;
