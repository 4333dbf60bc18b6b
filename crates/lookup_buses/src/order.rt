// The order of a table's lookups: those that are alone, then bus by bus.
ghost use Rattle.std.specs.Prelude.{◌≡◌, List, [], ◌++◌, ℕ, ◌+◌, ◌<◌, ◌≤◌, length, take, drop, replicate};
ghost use Rattle.lists.specs.Tab.{tab};
ghost use Rattle.lookup.specs.Lookups.{Lookups, bus_lookups, lookup_count};
ghost use Rattle.lookup.specs.Buses.{name_at, alone_at};
ghost use Rattle.lookup.specs.Requires.{BusNames};
ghost use Rattle.lookup_buses.specs.Order.{place, arranged};
ghost use Rattle.lookup_buses.specs.inner.Requires.{of_place, order_of};

use lookup::buses::{alone, same_bus};
use lookup::types::LOOKUP_WORDS;

// The place of lookup i: 0, or 1 + the first lookup of its bus. A number and not an `Option`: the definition sorts by it.
fn place_of(lookups: &[u32], names: &[u8], packing: bool, i: usize) -> u32
    requires { let l : Lookups = bus_lookups lookups.now names.now [] in BusNames l.lookups l.names × (i < lookup_count l.lookups) }
    ensures { let l : Lookups = bus_lookups lookups.now names.now [] in result ≡ place (alone_at packing l.lookups) (name_at l.lookups l.names) (lookup_count l.lookups) i }
{
    if alone(lookups, packing, i) {
        return 0;
    }
    let n = lookups.len() / LOOKUP_WORDS;
    for j in 0..n {
        if same_bus(lookups, names, packing, i, j) {
            return (j + 1) as u32;
        }
    }
    (n + 1) as u32
}

// The places of all lookups.
fn places(lookups: &[u32], names: &[u8], packing: bool) -> [u32; 64]
    requires { let l : Lookups = bus_lookups lookups.now names.now [] in BusNames l.lookups l.names }
    ensures { let l : Lookups = bus_lookups lookups.now names.now [] in result ≡ tab (place (alone_at packing l.lookups) (name_at l.lookups l.names) (lookup_count l.lookups)) 0 (lookup_count l.lookups) ++ drop (lookup_count l.lookups) (replicate 64 0) }
{
    let n = lookups.len() / LOOKUP_WORDS;
    let mut out = [0u32; 64];
    for i in 0..n {
        out[i] = place_of(lookups, names, packing, i);
    }
    out
}

// The lookups of place k go to order from `start` on; answers where they end, since the array has no length of its own.
fn push_place(places: &[u32], k: u32, n: usize, order: &mut [u32], start: usize) -> usize
    requires { let found : List ℕ = of_place places.now k n in (n ≤ 64) × (n ≤ length places.now) × (start + length found ≤ length order.old) }
    ensures { let found : List ℕ = of_place places.now k n in (result ≡ start + length found) × (order.new ≡ (take start order.old ++ found) ++ drop result order.old) }
{
    let mut end = start;
    for i in 0..n {
        if places[i] == k {
            order[end] = i as u32;
            end += 1;
        }
    }
    end
}

// The lookups by place, by number.
fn arrange(places: &[u32], n: usize, order: &mut [u32])
    requires { (n ≤ 64) × (n ≤ length places.now) × (n ≤ length order.old) }
    ensures { let found : List ℕ = order_of places.now (n + 1) n in order.new ≡ found ++ drop (length found) order.old }
{
    let mut end = 0;
    for k in 0..n + 1 {
        end = push_place(places, k as u32, n, order, end);
    }
}

// The order of a table's lookups, by number; zeros after them. An array of the most there may be, since there is no heap.
pub fn order(lookups: &[u32], names: &[u8], packing: bool) -> [u32; 64]
    requires { let l : Lookups = bus_lookups lookups.now names.now [] in BusNames l.lookups l.names }
    ensures { let l : Lookups = bus_lookups lookups.now names.now [] in result ≡ arranged (alone_at packing l.lookups) (name_at l.lookups l.names) (lookup_count l.lookups) ++ drop (lookup_count l.lookups) (replicate 64 0) }
{
    let n = lookups.len() / LOOKUP_WORDS;
    let places = places(lookups, names, packing);
    let mut out = [0u32; 64];
    arrange(&places, n, &mut out);
    out
}
