// Refusal 6 and the widest bus tuple over several tables.
ghost use Rattle.std.specs.Prelude.{◌≡◌, ◌<◌};
ghost use Rattle.expression.specs.Refusal.{refusal};
ghost use Rattle.lookup.specs.Lookups.{Lookups, bus_lookups, lookup_count};
ghost use Rattle.lookup_buses.specs.Widths.{width_in_table, expected, lookup_refusal, table_refusal, widths_refusal, widest_in_table, widest};
ghost use Rattle.lookup_buses.specs.CheckBusWidths.{BusTables, tables_of, lent_bus_tables};
ghost use Rattle.lookup_buses.specs.inner.Requires.{BusLists, BusTablesFit, TableAmong, among, width_option};

use crate::bus_table::{BUS_SIZES, table_at};
use crate::lookup_widths::{name_of, tuples_verdict, widest_in_lookup, width_in_lookup};
use crate::order::order;
use expression::refusal::Refusal;
use lookup::types::{LOOKUP_WORDS, on_bus};

// The width first seen on a bus in one table.
fn width_in_table(bus: &[u8], lookups: &[u32], names: &[u8], tuples: &[u32]) -> Option<u32>
    requires { let l : Lookups = bus_lookups lookups.now names.now tuples.now in BusLists l.lookups l.names l.tuples }
    ensures { let l : Lookups = bus_lookups lookups.now names.now tuples.now in width_option result ≡ width_in_table bus.now l }
{
    for i in 0..lookups.len() / LOOKUP_WORDS {
        let width = width_in_lookup(bus, lookups, names, tuples, i);
        if width.is_some() {
            return width;
        }
    }
    None
}

// The width first seen on a bus.
fn expected(bus: &[u8], lookups: &[u32], names: &[u8], tuples: &[u32], sizes: &[u32]) -> Option<u32>
    requires { let l : BusTables = lent_bus_tables lookups.now names.now tuples.now sizes.now in BusTablesFit l }
    ensures { let l : BusTables = lent_bus_tables lookups.now names.now tuples.now sizes.now in width_option result ≡ expected (tables_of l) bus.now }
{
    for t in 0..sizes.len() / BUS_SIZES {
        let own = table_at(lookups, names, tuples, sizes, t);
        let width = width_in_table(bus, own.lookups, own.names, own.tuples);
        if width.is_some() {
            return width;
        }
    }
    None
}

// Refusal 6 of lookup i of a table whose lists these are, among the lists of all tables.
fn lookup_verdict(
    lookups: &[u32],
    names: &[u8],
    tuples: &[u32],
    sizes: &[u32],
    own_lookups: &[u32],
    own_names: &[u8],
    own_tuples: &[u32],
    i: usize,
) -> Result<(), Refusal>
    requires { let s : TableAmong = among (lent_bus_tables lookups.now names.now tuples.now sizes.now) (bus_lookups own_lookups.now own_names.now own_tuples.now) in BusTablesFit s.all × BusLists s.own.lookups s.own.names s.own.tuples × (i < lookup_count s.own.lookups) }
    ensures { let s : TableAmong = among (lent_bus_tables lookups.now names.now tuples.now sizes.now) (bus_lookups own_lookups.now own_names.now own_tuples.now) in refusal result ≡ lookup_refusal (tables_of s.all) s.own i }
{
    if !on_bus(own_lookups, i) {
        return Ok(());
    }
    let name = name_of(own_lookups, own_names, i);
    let width = expected(name, lookups, names, tuples, sizes);
    tuples_verdict(width, own_lookups, own_tuples, i)
}

// Refusal 6 of one table, bus by bus.
fn table_verdict(
    lookups: &[u32],
    names: &[u8],
    tuples: &[u32],
    sizes: &[u32],
    own_lookups: &[u32],
    own_names: &[u8],
    own_tuples: &[u32],
) -> Result<(), Refusal>
    requires { let s : TableAmong = among (lent_bus_tables lookups.now names.now tuples.now sizes.now) (bus_lookups own_lookups.now own_names.now own_tuples.now) in BusTablesFit s.all × BusLists s.own.lookups s.own.names s.own.tuples }
    ensures { let s : TableAmong = among (lent_bus_tables lookups.now names.now tuples.now sizes.now) (bus_lookups own_lookups.now own_names.now own_tuples.now) in refusal result ≡ table_refusal (tables_of s.all) s.own }
{
    let ordered = order(own_lookups, own_names, false);
    for i in &ordered[0..own_lookups.len() / LOOKUP_WORDS] {
        lookup_verdict(
            lookups,
            names,
            tuples,
            sizes,
            own_lookups,
            own_names,
            own_tuples,
            *i as usize,
        )?;
    }
    Ok(())
}

// Refusal 6 over all tables (`check_bus_widths`).
pub fn bus_widths(
    lookups: &[u32],
    names: &[u8],
    tuples: &[u32],
    sizes: &[u32],
) -> Result<(), Refusal>
    requires { let l : BusTables = lent_bus_tables lookups.now names.now tuples.now sizes.now in BusTablesFit l }
    ensures { let l : BusTables = lent_bus_tables lookups.now names.now tuples.now sizes.now in refusal result ≡ widths_refusal (tables_of l) }
{
    for t in 0..sizes.len() / BUS_SIZES {
        let own = table_at(lookups, names, tuples, sizes, t);
        table_verdict(
            lookups,
            names,
            tuples,
            sizes,
            own.lookups,
            own.names,
            own.tuples,
        )?;
    }
    Ok(())
}

// The widest bus tuple of one table.
fn widest_in_table(lookups: &[u32], names: &[u8], tuples: &[u32]) -> u32
    requires { let l : Lookups = bus_lookups lookups.now names.now tuples.now in BusLists l.lookups l.names l.tuples }
    ensures { let l : Lookups = bus_lookups lookups.now names.now tuples.now in result ≡ widest_in_table l }
{
    let mut top: u32 = 0;
    for i in 0..lookups.len() / LOOKUP_WORDS {
        top = top.max(widest_in_lookup(lookups, names, tuples, i));
    }
    top
}

// The widest bus tuple of all.
pub fn widest(lookups: &[u32], names: &[u8], tuples: &[u32], sizes: &[u32]) -> u32
    requires { let l : BusTables = lent_bus_tables lookups.now names.now tuples.now sizes.now in BusTablesFit l }
    ensures { let l : BusTables = lent_bus_tables lookups.now names.now tuples.now sizes.now in result ≡ widest (tables_of l) }
{
    let mut top: u32 = 0;
    for t in 0..sizes.len() / BUS_SIZES {
        let own = table_at(lookups, names, tuples, sizes, t);
        top = top.max(widest_in_table(own.lookups, own.names, own.tuples));
    }
    top
}
