// Where the parts of a lookup begin in the lists.
ghost use Rattle.std.specs.Prelude.{◌≡◌, ◌+◌, ◌*◌, ◌≤◌, length};
ghost use Rattle.lookup.specs.Lookups.{lookup_words, tuple_start};
ghost use Rattle.balance.specs.inner.LookupStarts.{lookup_starts_at};

use lookup::starts::{element_start, flag_start, multiplicity_start, tuple_start};
use lookup::types::{exclusive, tuple_count};

// Whether the lookup is exclusive, how many tuples it has, and where its tuples, multiplicities, flags and elements begin. The flags' place is said of every lookup: an option of it
// would leave out where those after an additive lookup begin.
#[derive(Clone, Copy)]
pub struct LookupStarts {
    pub exclusive: bool,
    pub count: usize,
    pub tuples: usize,
    pub multiplicities: usize,
    pub flags: usize,
    pub elements: usize,
}

pub fn lookup_starts(lookups: &[u32], tuples: &[u32], i: usize) -> LookupStarts
    requires { (lookup_words * i + lookup_words ≤ length lookups.now) × (i ≤ 1024) × (tuple_start lookups.now i ≤ length tuples.now) × (length tuples.now ≤ 4294967295) }
    ensures { result ≡ lookup_starts_at lookups.now tuples.now i }
{
    let first_tuple = tuple_start(lookups, i);
    LookupStarts {
        exclusive: exclusive(lookups, i),
        count: tuple_count(lookups, i) as usize,
        tuples: first_tuple,
        multiplicities: multiplicity_start(lookups, i),
        flags: flag_start(lookups, i),
        elements: element_start(tuples, first_tuple),
    }
}
