// The lists of one table, cut from the lists of all tables.
ghost use Rattle.std.specs.Prelude.{◌≡◌, ◌*◌, ◌+◌, ◌<◌, ◌≤◌};
ghost use Rattle.lookup.specs.Lookups.{bus_lookups};
ghost use Rattle.lookup.specs.Sizes.{size, size_start, table_count};
ghost use Rattle.lookup_buses.specs.CheckBusWidths.{BusTables, bus_sizes, table_at, lent_bus_tables};
ghost use Rattle.lookup_buses.specs.inner.Requires.{BusListsCover};

use lookup::sizes::{part_start, size};
use lookup::types::LOOKUP_WORDS;
use std::ops::Range;

// How many sizes a table has, and the place of each.
pub const BUS_SIZES: usize = 3;

pub const LOOKUP_COUNT_SIZE: usize = 0;

pub const NAME_BYTES_SIZE: usize = 1;

pub const TUPLE_COUNT_SIZE: usize = 2;

#[derive(Clone, Copy)]
pub struct BusTable<'a> {
    pub lookups: &'a [u32],
    pub names: &'a [u8],
    pub tuples: &'a [u32],
}

// Where table t lies in a list of which size f counts units of so many words.
fn span(sizes: &[u32], f: usize, unit: usize, t: usize) -> Range<usize>
    requires { (f < bus_sizes) × (unit ≤ 9) × (t ≤ 16) }
    ensures start { result.start ≡ unit * size_start bus_sizes sizes.now f t }
    ensures end { result.end ≡ unit * size_start bus_sizes sizes.now f t + unit * size bus_sizes sizes.now f t }
{
    // Not `part_end`: that would go over the tables before t once more.
    let start = part_start(sizes, BUS_SIZES, f, unit, t);
    start..start + unit * size(sizes, BUS_SIZES, f, t)
}

// The lists of table t.
pub fn table_at<'a>(
    lookups: &'a [u32],
    names: &'a [u8],
    tuples: &'a [u32],
    sizes: &[u32],
    t: usize,
) -> BusTable<'a>
    requires { let l : BusTables = lent_bus_tables lookups.now names.now tuples.now sizes.now in BusListsCover l × (t < table_count bus_sizes l.sizes) }
    ensures { let l : BusTables = lent_bus_tables lookups.now names.now tuples.now sizes.now in bus_lookups result.lookups.now result.names.now result.tuples.now ≡ table_at l t }
{
    BusTable {
        lookups: &lookups[span(sizes, LOOKUP_COUNT_SIZE, LOOKUP_WORDS, t)],
        names: &names[span(sizes, NAME_BYTES_SIZE, 1, t)],
        tuples: &tuples[span(sizes, TUPLE_COUNT_SIZE, 1, t)],
    }
}
