// Balance (`check_lookups`): the entry point.

#![tactic(auto)]

pub mod debug_util;
