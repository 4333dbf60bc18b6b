// Answers as numbers, for the exported functions: number, three details, and what else there is (SPECIFICATION, section 14.1).

#![tactic(auto)]

pub mod answer;
pub mod built;
pub mod count;
pub mod element;
pub mod generated;
pub mod packed;
pub mod row;
pub mod terminal;
pub mod values;
