// Refusals 1, 5 and 9 of a table's lookups, as tests that hold where there is no such refusal.
ghost use Rattle.std.specs.Prelude.{◌≡◌, cond, List, ℕ, ◌+◌, ◌*◌, ◌≤◌, length};
ghost use Rattle.lists.specs.Count.{every};
ghost use Rattle.lookup.specs.Lookups.{as_lookups, lookup_words, lookup_count, column, exclusive, tuple_count};
ghost use Rattle.lookup.specs.Tests.{weight_limit, lookup_within, lookups_within, lookups_fit, lengths_agree, nodes_present, lists_agree, in_position, has_lookups, preprocessed_enough, rows_enough};

use crate::starts::{element_start, flag_start, multiplicity_start, name_start, tuple_start};
use crate::table::LentLookups;
use crate::types::{
    LOOKUP_WORDS, column, exclusive, flag_count, multiplicity_count, name_length, on_bus,
    tuple_count, weight,
};
use expression::sizes::{Limits, Shape};
use expression::words::{all_below, all_within};

// The most that lookup i's weight may be.
fn weight_limit(lookups: &[u32], i: usize) -> u64
    requires { lookup_words * i + lookup_words ≤ length lookups.now }
    ensures { result ≡ weight_limit lookups.now i }
{
    let tuples = tuple_count(lookups, i);
    if on_bus(lookups, i) | (tuples == 0) {
        return 4294967295;
    }
    u64::from(tuples) * 4294967295
}

// The name and the weight of lookup i are within the limits.
fn lookup_within(limits: Limits, lookups: &[u32], i: usize) -> bool
    requires { lookup_words * i + lookup_words ≤ length lookups.now }
    ensures { result ≡ lookup_within limits lookups.now i }
{
    (name_length(lookups, i) <= limits.name_bytes)
        & (weight(lookups, i) <= weight_limit(lookups, i))
}

// So of each lookup. Here and below a flag, and no early return: that would be no shorter.
pub fn each_within(limits: Limits, lookups: &[u32]) -> bool
    ensures { let l : List ℕ = lookups.now in result ≡ every (lookup_within limits l) (lookup_count l) }
{
    let n = lookups.len() / LOOKUP_WORDS;
    let mut ok = true;
    for i in 0..n {
        ok &= lookup_within(limits, lookups, i);
    }
    ok
}

// The lookups, their tuples, the words of each tuple, the bytes of each name and each weight are within the limits.
pub fn lookups_within(limits: Limits, lookups: &[u32], tuples: &[u32]) -> bool
    ensures { result ≡ lookups_within limits lookups.now tuples.now }
{
    (lookups.len() / LOOKUP_WORDS <= limits.lookups)
        & (tuples.len() <= limits.tuples)
        & all_within(limits.tuple_words, tuples)
        & each_within(limits, lookups)
}

// Each list has the length that the lookups say.
pub fn lookups_fit(lookups: &LentLookups) -> bool
    requires { (lookup_count lookups.now.records.now ≤ 4294967295) × (length lookups.now.tuples.now ≤ 4294967295) }
    ensures { result ≡ lookups_fit (as_lookups lookups.now) }
{
    let n = lookups.records.len() / LOOKUP_WORDS;
    (lookups.records.len() % LOOKUP_WORDS == 0)
        & (lookups.names.len() == name_start(lookups.records, n))
        & (lookups.tuples.len() == tuple_start(lookups.records, n))
        & (lookups.multiplicities.len() == multiplicity_start(lookups.records, n))
        & (lookups.flags.len() == flag_start(lookups.records, n))
        & (lookups.elements.len() == element_start(lookups.tuples, lookups.tuples.len()))
}

// How many flags lookup i must have.
fn flags_due(lookups: &[u32], i: usize) -> u32
    requires { lookup_words * i + lookup_words ≤ length lookups.now }
    ensures { let l : List ℕ = lookups.now in result ≡ cond (exclusive l i) (tuple_count l i) 0 }
{
    if exclusive(lookups, i) {
        tuple_count(lookups, i)
    } else {
        0
    }
}

// Lookup i has a multiplicity for each tuple, and a flag for each branch if it is exclusive.
pub fn lengths_agree(lookups: &[u32], i: usize) -> bool
    requires { lookup_words * i + lookup_words ≤ length lookups.now }
    ensures { result ≡ lengths_agree lookups.now i }
{
    (multiplicity_count(lookups, i) == tuple_count(lookups, i))
        & (flag_count(lookups, i) == flags_due(lookups, i))
}

// The numbers of tuples, multiplicities and flags agree in each lookup.
pub fn all_agree(lookups: &[u32]) -> bool
    ensures { let l : List ℕ = lookups.now in result ≡ every (lengths_agree l) (lookup_count l) }
{
    let n = lookups.len() / LOOKUP_WORDS;
    let mut ok = true;
    for i in 0..n {
        ok &= lengths_agree(lookups, i);
    }
    ok
}

// Each node that a lookup names is one of the n nodes.
pub fn nodes_present(n: u32, lookups: &LentLookups) -> bool
    ensures { result ≡ nodes_present n (as_lookups lookups.now) }
{
    all_below(n, lookups.multiplicities)
        & all_below(n, lookups.flags)
        & all_below(n, lookups.elements)
}

// Refusal 5 of every entry point, with n nodes.
pub fn lists_agree(n: u32, lookups: &LentLookups) -> bool
    ensures { result ≡ lists_agree n (as_lookups lookups.now) }
{
    all_agree(lookups.records) & nodes_present(n, lookups)
}

// The column of each lookup is its position.
pub fn in_position(lookups: &[u32]) -> bool
    ensures { result ≡ in_position lookups.now }
{
    let n = lookups.len() / LOOKUP_WORDS;
    let mut ok = true;
    for i in 0..n {
        ok &= (column(lookups, i) as usize == i);
    }
    ok
}

pub fn has_lookups(lookups: &[u32]) -> bool
    ensures { result ≡ has_lookups lookups.now }
{
    0 < lookups.len() / LOOKUP_WORDS
}

// A preprocessed trace has at least main's rows.
pub fn preprocessed_enough(shape: Shape) -> bool
    ensures { result ≡ preprocessed_enough shape }
{
    (shape.pre_width == 0) | (shape.height <= shape.pre_height)
}

// A table with lookups has rows, and enough preprocessed ones.
pub fn rows_enough(shape: Shape, lookups: &[u32]) -> bool
    ensures { result ≡ rows_enough shape lookups.now }
{
    !has_lookups(lookups) | ((0 < shape.height) & preprocessed_enough(shape))
}
