// The rows of the permutation trace: one row's terms and its first fault (row), two rows (pair), a block of rows with one inverse for all
// its terms (block, writing), and all rows in parts of 1,024, each lent from its own start (trace).
// These functions serve the crates above: they require what those crates have tested.

#![tactic(auto)]

pub mod block;
pub mod pair;
pub mod row;
pub mod trace;
pub mod writing;
