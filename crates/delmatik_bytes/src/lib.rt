// Functions for callers in other languages that hold bytes. Each list of words is a byte slice, four bytes a word, the least byte first. The caller
// lends two rooms of words as working memory: one for the lists that are read, one for what is written. Where a choice is unknown, or bytes and rooms
// have other sizes than they should, the rooms too stay as they were.

#![tactic(auto)]

pub mod check_lookups;
pub mod generate_permutation;
pub mod lookups;
pub mod pack_same_bus;
