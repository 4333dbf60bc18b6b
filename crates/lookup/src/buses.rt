// Bus equality: two lookups are on one bus where their names are equal.
ghost use Rattle.std.specs.Prelude.{◌≡◌, [], ◌+◌, ◌*◌, ◌<◌, ◌≤◌, length};
ghost use Rattle.lists.specs.Same.{same_list};
ghost use Rattle.lookup.specs.Lookups.{Lookups, bus_lookups, lookup_words, lookup_count};
ghost use Rattle.lookup.specs.Buses.{name_at, alone_at, same_bus};
ghost use Rattle.lookup.specs.Requires.{BusNames};

use crate::starts::name_start;
use crate::types::{exclusive, name_length, on_bus};

// Whether two names are equal.
pub fn same_bytes(x: &[u8], y: &[u8]) -> bool
    ensures { result ≡ same_list x.now y.now }
{
    x == y
}

// A lookup that shares its column with none: a local, and in packing an exclusive one too.
pub fn alone(lookups: &[u32], packing: bool, i: usize) -> bool
    requires { lookup_words * i + lookup_words ≤ length lookups.now }
    ensures { result ≡ alone_at packing lookups.now i }
{
    !on_bus(lookups, i) | (packing & exclusive(lookups, i))
}

// Whether lookups i and j are on one bus, neither alone.
pub fn same_bus(lookups: &[u32], names: &[u8], packing: bool, i: usize, j: usize) -> bool
    requires { let l : Lookups = bus_lookups lookups.now names.now [] in BusNames l.lookups l.names × (i < lookup_count l.lookups) × (j < lookup_count l.lookups) }
    ensures { let l : Lookups = bus_lookups lookups.now names.now [] in result ≡ same_bus (alone_at packing l.lookups) (name_at l.lookups l.names) i j }
{
    if alone(lookups, packing, i) || alone(lookups, packing, j) {
        return false;
    }
    let first = name_start(lookups, i);
    let second = name_start(lookups, j);
    let first_end = first + name_length(lookups, i) as usize;
    let second_end = second + name_length(lookups, j) as usize;
    same_bytes(&names[first..first_end], &names[second..second_end])
}
