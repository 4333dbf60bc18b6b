// Where the lists of a table lie in the lists of all tables.
ghost use Rattle.std.specs.Prelude.{◌≡◌, ◌+◌, ◌*◌, ◌<◌, ◌≤◌};
ghost use Rattle.balance.specs.Tables.{table_sizes, table_count, size, size_start, shape_at};
ghost use Rattle.balance.specs.Members.{table_of};

use expression::sizes::Shape;
use lookup::sizes::size;
use lookup::table::LentLookups;

// The sizes of a table, and the place of each among them.
pub const TABLE_SIZES: usize = 14;

pub const MAIN_WIDTH_SIZE: usize = 0;

pub const HEIGHT_SIZE: usize = 1;

pub const PREPROCESSED_WIDTH_SIZE: usize = 2;

pub const PREPROCESSED_HEIGHT_SIZE: usize = 3;

pub const MAIN_COUNT_SIZE: usize = 4;

pub const PREPROCESSED_COUNT_SIZE: usize = 5;

pub const PUBLIC_VALUE_COUNT_SIZE: usize = 6;

pub const NODE_COUNT_SIZE: usize = 7;

pub const LOOKUP_COUNT_SIZE: usize = 8;

pub const NAME_BYTE_COUNT_SIZE: usize = 9;

pub const TUPLE_COUNT_SIZE: usize = 10;

pub const MULTIPLICITY_COUNT_SIZE: usize = 11;

pub const FLAG_COUNT_SIZE: usize = 12;

pub const ELEMENT_COUNT_SIZE: usize = 13;

// Several tables, one after the other in each list. `sizes` has fourteen words for each of them.
#[derive(Clone, Copy)]
pub struct LentTables<'a> {
    pub sizes: &'a [u32],
    pub main: &'a [u32],
    pub preprocessed: &'a [u32],
    pub public_values: &'a [u32],
    pub nodes: &'a [u32],
    pub lookups: LentLookups<'a>,
}

pub fn shape_of(sizes: &[u32], t: usize) -> Shape
    requires { (t < table_count sizes.now) × (table_count sizes.now ≤ 16) }
    ensures { result ≡ shape_at sizes.now t }
{
    Shape {
        main_width: size(sizes, TABLE_SIZES, MAIN_WIDTH_SIZE, t),
        height: size(sizes, TABLE_SIZES, HEIGHT_SIZE, t),
        pre_width: size(sizes, TABLE_SIZES, PREPROCESSED_WIDTH_SIZE, t),
        pre_height: size(sizes, TABLE_SIZES, PREPROCESSED_HEIGHT_SIZE, t),
    }
}

// The table of lookup m. Past the last lookup it is how many tables there are, as in the definition of that name.
pub fn table_of(sizes: &[u32], m: usize) -> usize
    requires { table_count sizes.now ≤ 16 }
    ensures { result ≡ table_of sizes.now m }
{
    let n = sizes.len() / TABLE_SIZES;
    let mut end: usize = 0;
    for t in 0..n {
        end += size(sizes, TABLE_SIZES, LOOKUP_COUNT_SIZE, t);
        if m < end {
            return t;
        }
    }
    n
}
