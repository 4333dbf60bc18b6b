// One row of a table: the window on its traces and the values of the nodes.

#![tactic(auto)]

pub mod traits;
pub mod window;
