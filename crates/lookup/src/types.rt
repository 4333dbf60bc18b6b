// Lookups and terminals. A lookup is a record of nine words of the flat list.
ghost use Rattle.std.specs.Prelude.{◌≡◌, ◌+◌, ◌*◌, ◌<◌, ◌≤◌, length};
ghost use Rattle.lookup.specs.Lookups.{lookup_words, lookup_word, on_bus, name_length, weight, column, exclusive, tuple_count, multiplicity_count, flag_count};

use field::extension::Ext;

// The words of a lookup's record, and the place of each.
pub const LOOKUP_WORDS: usize = 9;

pub const SCOPE_WORD: usize = 0;

pub const NAME_LENGTH_WORD: usize = 1;

pub const WEIGHT_WORD: usize = 2;

pub const COLUMN_WORD: usize = 3;

pub const EXCLUSIVE_WORD: usize = 4;

pub const TUPLE_COUNT_WORD: usize = 5;

pub const MULTIPLICITY_COUNT_WORD: usize = 6;

pub const FLAG_COUNT_WORD: usize = 7;

pub const WEIGHT_HIGH_WORD: usize = 8;

// The sum of all fractions of a table. It is wrapped, so that it is never passed where a challenge belongs.
#[derive(Clone, Copy)]
pub struct LookupTerminal(pub Ext);

// Word f of lookup i.
pub fn lookup_word(lookups: &[u32], i: usize, f: usize) -> u32
    requires { (f < lookup_words) × (lookup_words * i + lookup_words ≤ length lookups.now) }
    ensures { result ≡ lookup_word lookups.now i f }
{
    lookups[LOOKUP_WORDS * i + f]
}

// A lookup is on a bus, or local.
pub fn on_bus(lookups: &[u32], i: usize) -> bool
    requires { lookup_words * i + lookup_words ≤ length lookups.now }
    ensures { result ≡ on_bus lookups.now i }
{
    lookup_word(lookups, i, SCOPE_WORD) != 0
}

// How many bytes of the names are lookup i's: none of a local.
pub fn name_length(lookups: &[u32], i: usize) -> u32
    requires { lookup_words * i + lookup_words ≤ length lookups.now }
    ensures { result ≡ name_length lookups.now i }
{
    if on_bus(lookups, i) {
        lookup_word(lookups, i, NAME_LENGTH_WORD)
    } else {
        0
    }
}

pub fn weight(lookups: &[u32], i: usize) -> u64
    requires { lookup_words * i + lookup_words ≤ length lookups.now }
    ensures { result ≡ weight lookups.now i }
{
    let low = u64::from(lookup_word(lookups, i, WEIGHT_WORD));
    let high = u64::from(lookup_word(lookups, i, WEIGHT_HIGH_WORD));
    low + 4294967296 * high
}

pub fn column(lookups: &[u32], i: usize) -> u32
    requires { lookup_words * i + lookup_words ≤ length lookups.now }
    ensures { result ≡ column lookups.now i }
{
    lookup_word(lookups, i, COLUMN_WORD)
}

pub fn exclusive(lookups: &[u32], i: usize) -> bool
    requires { lookup_words * i + lookup_words ≤ length lookups.now }
    ensures { result ≡ exclusive lookups.now i }
{
    lookup_word(lookups, i, EXCLUSIVE_WORD) != 0
}

pub fn tuple_count(lookups: &[u32], i: usize) -> u32
    requires { lookup_words * i + lookup_words ≤ length lookups.now }
    ensures { result ≡ tuple_count lookups.now i }
{
    lookup_word(lookups, i, TUPLE_COUNT_WORD)
}

pub fn multiplicity_count(lookups: &[u32], i: usize) -> u32
    requires { lookup_words * i + lookup_words ≤ length lookups.now }
    ensures { result ≡ multiplicity_count lookups.now i }
{
    lookup_word(lookups, i, MULTIPLICITY_COUNT_WORD)
}

pub fn flag_count(lookups: &[u32], i: usize) -> u32
    requires { lookup_words * i + lookup_words ≤ length lookups.now }
    ensures { result ≡ flag_count lookups.now i }
{
    lookup_word(lookups, i, FLAG_COUNT_WORD)
}
