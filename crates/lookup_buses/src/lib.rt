// Bus widths, and the order of a table's lookups by bus.

#![tactic(auto)]

pub mod bus_table;
pub mod check_bus_widths;
pub mod lookup_widths;
pub mod order;
pub mod tables;
