// Where the parts of lookup i begin in the lists.
ghost use Rattle.std.specs.Prelude.{◌≡◌, ◌*◌, ◌≤◌};
ghost use Rattle.lookup.specs.Lookups.{lookup_count, name_start, tuple_start, multiplicity_start, flag_start, element_start};

use crate::types::{
    FLAG_COUNT_WORD, LOOKUP_WORDS, MULTIPLICITY_COUNT_WORD, TUPLE_COUNT_WORD, name_length,
};
use expression::words::total_of;

// A loop of its own, and not `total_of`: a local has no name, whatever its word says.
pub fn name_start(lookups: &[u32], i: usize) -> usize
    requires { (i ≤ lookup_count lookups.now) × (i ≤ 4294967295) }
    ensures { (result ≡ name_start lookups.now i) × (result ≤ i * 4294967295) }
{
    let mut sum: usize = 0;
    for j in 0..i {
        sum += name_length(lookups, j) as usize;
    }
    sum
}

pub fn tuple_start(lookups: &[u32], i: usize) -> usize
    requires { i ≤ 4294967295 }
    ensures { (result ≡ tuple_start lookups.now i) × (result ≤ i * 4294967295) }
{
    total_of(lookups, LOOKUP_WORDS, TUPLE_COUNT_WORD, i)
}

pub fn multiplicity_start(lookups: &[u32], i: usize) -> usize
    requires { i ≤ 4294967295 }
    ensures { (result ≡ multiplicity_start lookups.now i) × (result ≤ i * 4294967295) }
{
    total_of(lookups, LOOKUP_WORDS, MULTIPLICITY_COUNT_WORD, i)
}

pub fn flag_start(lookups: &[u32], i: usize) -> usize
    requires { i ≤ 4294967295 }
    ensures { (result ≡ flag_start lookups.now i) × (result ≤ i * 4294967295) }
{
    total_of(lookups, LOOKUP_WORDS, FLAG_COUNT_WORD, i)
}

// Where the elements of the table's tuple j begin.
pub fn element_start(tuples: &[u32], j: usize) -> usize
    requires { j ≤ 4294967295 }
    ensures { (result ≡ element_start tuples.now j) × (result ≤ j * 4294967295) }
{
    total_of(tuples, 1, 0, j)
}
