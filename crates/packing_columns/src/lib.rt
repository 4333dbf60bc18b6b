// The columns of packing: which lookups share one, the parts of the table's lists that belong to them, and the packed table.

#![tactic(auto)]

pub mod columns;
pub mod layout;
pub mod lookup_lists;
