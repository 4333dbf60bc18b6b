// Words in bytes, for callers that hold bytes.

#![tactic(auto)]

pub mod room;
pub mod words;
