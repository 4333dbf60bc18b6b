// The width of one lookup's tuples, and whether they are as wide as expected.
ghost use Rattle.std.specs.Prelude.{◌≡◌, [], ◌+◌, ◌<◌, ◌≤◌, length};
ghost use Rattle.lists.specs.Count.{first};
ghost use Rattle.expression.specs.Refusal.{refusal};
ghost use Rattle.lookup.specs.Lookups.{Lookups, bus_lookups, lookup_count, tuple_count, tuple_start, tuple_width};
ghost use Rattle.lookup.specs.Buses.{name_at};
ghost use Rattle.lookup.specs.Requires.{BusNames};
ghost use Rattle.lookup_degree.specs.Sums.{greatest};
ghost use Rattle.lookup_buses.specs.Widths.{width_in_lookup, tuple_refusal, widest_in_lookup};
ghost use Rattle.lookup_buses.specs.inner.Requires.{BusLists, width_option};

use expression::refusal::Refusal;
use lookup::buses::same_bytes;
use lookup::starts::{name_start, tuple_start};
use lookup::types::{name_length, on_bus, tuple_count};

// The bytes of the name of lookup i.
pub fn name_of<'a>(lookups: &[u32], names: &'a [u8], i: usize) -> &'a [u8]
    requires { BusNames lookups.now names.now × (i < lookup_count lookups.now) }
    ensures { result.now ≡ name_at lookups.now names.now i }
{
    let start = name_start(lookups, i);
    let end = start + name_length(lookups, i) as usize;
    &names[start..end]
}

// The width of the first tuple of lookup i, if that is on the bus of this name and has tuples.
pub fn width_in_lookup(
    bus: &[u8],
    lookups: &[u32],
    names: &[u8],
    tuples: &[u32],
    i: usize,
) -> Option<u32>
    requires { let l : Lookups = bus_lookups lookups.now names.now tuples.now in BusLists l.lookups l.names l.tuples × (i < lookup_count l.lookups) }
    ensures { let l : Lookups = bus_lookups lookups.now names.now tuples.now in width_option result ≡ width_in_lookup bus.now l i }
{
    if !on_bus(lookups, i) {
        return None;
    }
    if !same_bytes(bus, name_of(lookups, names, i)) {
        return None;
    }
    if tuple_count(lookups, i) == 0 {
        return None;
    }
    Some(tuples[tuple_start(lookups, i)])
}

// Refusal 6 of a tuple of lookup i, of this width.
fn tuple_verdict(i: usize, expected: Option<u32>, width: u32) -> Result<(), Refusal>
    ensures { refusal result ≡ tuple_refusal i (width_option expected) width }
{
    match expected {
        Some(e) if width != e => {
            Err(Refusal::WidthsDiffer(i as u64, u64::from(e), u64::from(width)))
        }
        _ => Ok(()),
    }
}

// Refusal 6 of the tuples of lookup i, where this width is expected.
pub fn tuples_verdict(
    expected: Option<u32>,
    lookups: &[u32],
    tuples: &[u32],
    i: usize,
) -> Result<(), Refusal>
    requires { let l : Lookups = bus_lookups lookups.now [] tuples.now in (lookup_count l.lookups ≤ 64) × (i < lookup_count l.lookups) × (tuple_start l.lookups i + tuple_count l.lookups i ≤ length l.tuples) }
    ensures { let l : Lookups = bus_lookups lookups.now [] tuples.now in refusal result ≡ first (λ k. tuple_refusal i (width_option expected) (tuple_width l.lookups l.tuples i k)) (tuple_count l.lookups i) }
{
    let start = tuple_start(lookups, i);
    let end = start + tuple_count(lookups, i) as usize;
    for width in &tuples[start..end] {
        tuple_verdict(i, expected, *width)?;
    }
    Ok(())
}

// The widest tuple of lookup i.
fn widest_tuple(lookups: &[u32], tuples: &[u32], i: usize) -> u32
    requires { let l : Lookups = bus_lookups lookups.now [] tuples.now in (lookup_count l.lookups ≤ 64) × (i < lookup_count l.lookups) × (tuple_start l.lookups i + tuple_count l.lookups i ≤ length l.tuples) }
    ensures { let l : Lookups = bus_lookups lookups.now [] tuples.now in result ≡ greatest (tuple_width l.lookups l.tuples i) (tuple_count l.lookups i) }
{
    let start = tuple_start(lookups, i);
    let end = start + tuple_count(lookups, i) as usize;
    let mut top: u32 = 0;
    for width in &tuples[start..end] {
        top = top.max(*width);
    }
    top
}

// The widest tuple of lookup i, if that is on a bus.
pub fn widest_in_lookup(lookups: &[u32], names: &[u8], tuples: &[u32], i: usize) -> u32
    requires { let l : Lookups = bus_lookups lookups.now names.now tuples.now in BusLists l.lookups l.names l.tuples × (i < lookup_count l.lookups) }
    ensures { let l : Lookups = bus_lookups lookups.now names.now tuples.now in result ≡ widest_in_lookup l i }
{
    if on_bus(lookups, i) {
        widest_tuple(lookups, tuples, i)
    } else {
        0
    }
}
