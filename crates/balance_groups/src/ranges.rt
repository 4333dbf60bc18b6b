// Where the lists of a table lie in the lists of all tables.
ghost use Rattle.std.specs.Prelude.{◌≡◌, ◌<◌, ◌≤◌};
ghost use Rattle.balance.specs.Tables.{table_count};
ghost use Rattle.balance_groups.specs.inner.Ranges.{table_ranges_at};

use balance::tables::{
    ELEMENT_COUNT_SIZE, FLAG_COUNT_SIZE, LOOKUP_COUNT_SIZE, MAIN_COUNT_SIZE,
    MULTIPLICITY_COUNT_SIZE, NAME_BYTE_COUNT_SIZE, NODE_COUNT_SIZE, PREPROCESSED_COUNT_SIZE,
    PUBLIC_VALUE_COUNT_SIZE, TABLE_SIZES, TUPLE_COUNT_SIZE,
};
use expression::node::NODE_WORDS;
use lookup::sizes::{part_end, part_start};
use lookup::types::LOOKUP_WORDS;

// Starts and ends: std's Range is not Copy, and a range of its own type would be taken apart again at each cut.
#[derive(Clone, Copy)]
pub struct TableRanges {
    pub main: usize,
    pub main_end: usize,
    pub preprocessed: usize,
    pub preprocessed_end: usize,
    pub public_values: usize,
    pub public_values_end: usize,
    pub nodes: usize,
    pub nodes_end: usize,
    pub lookups: usize,
    pub lookups_end: usize,
    pub names: usize,
    pub names_end: usize,
    pub tuples: usize,
    pub tuples_end: usize,
    pub multiplicities: usize,
    pub multiplicities_end: usize,
    pub flags: usize,
    pub flags_end: usize,
    pub elements: usize,
    pub elements_end: usize,
}

pub fn table_ranges(sizes: &[u32], t: usize) -> TableRanges
    requires { (t < table_count sizes.now) × (table_count sizes.now ≤ 16) }
    ensures { result ≡ table_ranges_at sizes.now t }
{
    TableRanges {
        main: part_start(sizes, TABLE_SIZES, MAIN_COUNT_SIZE, 1, t),
        main_end: part_end(sizes, TABLE_SIZES, MAIN_COUNT_SIZE, 1, t),
        preprocessed: part_start(sizes, TABLE_SIZES, PREPROCESSED_COUNT_SIZE, 1, t),
        preprocessed_end: part_end(sizes, TABLE_SIZES, PREPROCESSED_COUNT_SIZE, 1, t),
        public_values: part_start(sizes, TABLE_SIZES, PUBLIC_VALUE_COUNT_SIZE, 1, t),
        public_values_end: part_end(sizes, TABLE_SIZES, PUBLIC_VALUE_COUNT_SIZE, 1, t),
        nodes: part_start(sizes, TABLE_SIZES, NODE_COUNT_SIZE, NODE_WORDS, t),
        nodes_end: part_end(sizes, TABLE_SIZES, NODE_COUNT_SIZE, NODE_WORDS, t),
        lookups: part_start(sizes, TABLE_SIZES, LOOKUP_COUNT_SIZE, LOOKUP_WORDS, t),
        lookups_end: part_end(sizes, TABLE_SIZES, LOOKUP_COUNT_SIZE, LOOKUP_WORDS, t),
        names: part_start(sizes, TABLE_SIZES, NAME_BYTE_COUNT_SIZE, 1, t),
        names_end: part_end(sizes, TABLE_SIZES, NAME_BYTE_COUNT_SIZE, 1, t),
        tuples: part_start(sizes, TABLE_SIZES, TUPLE_COUNT_SIZE, 1, t),
        tuples_end: part_end(sizes, TABLE_SIZES, TUPLE_COUNT_SIZE, 1, t),
        multiplicities: part_start(sizes, TABLE_SIZES, MULTIPLICITY_COUNT_SIZE, 1, t),
        multiplicities_end: part_end(sizes, TABLE_SIZES, MULTIPLICITY_COUNT_SIZE, 1, t),
        flags: part_start(sizes, TABLE_SIZES, FLAG_COUNT_SIZE, 1, t),
        flags_end: part_end(sizes, TABLE_SIZES, FLAG_COUNT_SIZE, 1, t),
        elements: part_start(sizes, TABLE_SIZES, ELEMENT_COUNT_SIZE, 1, t),
        elements_end: part_end(sizes, TABLE_SIZES, ELEMENT_COUNT_SIZE, 1, t),
    }
}
