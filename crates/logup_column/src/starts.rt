// Where the lookups' own parts begin in the table's lists.
ghost use Rattle.std.specs.Prelude.{◌<◌, ◌+◌};
ghost use Rattle.lookup.specs.Lookups.{Lookups, as_lookups, lookup_count};
ghost use Rattle.logup_column.specs.inner.Requires.{Listed, StartsOf, StartsWithin};

use crate::column;
use lookup::table::LentLookups;
use lookup::types;

// Where a lookup's own parts begin in the table's lists.
#[derive(Clone, Copy)]
pub struct Starts {
    pub tuple: usize,
    pub multiplicity: usize,
    pub flag: usize,
    pub element: usize,
}

// Where the next lookup's parts begin.
pub fn next_starts(lookups: &LentLookups, i: usize, at: Starts) -> Starts
    requires { let l : Lookups = as_lookups lookups.now in Listed l × (i < lookup_count l.lookups) × StartsOf l.lookups l.tuples i at }
    ensures { let l : Lookups = as_lookups lookups.now in StartsOf l.lookups l.tuples (i + 1) result × StartsWithin l.tuples l.multiplicities l.flags l.elements at result }
{
    let tuple = at.tuple + types::tuple_count(lookups.records, i) as usize;
    Starts {
        tuple,
        multiplicity: at.multiplicity + types::multiplicity_count(lookups.records, i) as usize,
        flag: at.flag + types::flag_count(lookups.records, i) as usize,
        element: column::start_of(
            lookups.tuples,
            lookups.elements,
            at.tuple,
            at.element,
            tuple,
        ),
    }
}
