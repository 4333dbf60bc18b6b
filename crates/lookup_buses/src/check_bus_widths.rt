// The widths of the buses of several tables, of which only the lookups are given: the entry point.
ghost use Rattle.std.specs.Prelude.{◌≡◌, true};
ghost use Rattle.lists.specs.Count.{every};
ghost use Rattle.expression.specs.Limits.{Sane};
ghost use Rattle.lookup.specs.Sizes.{table_count};
ghost use Rattle.lookup_buses.specs.CheckBusWidths.{BusTables, bus_sizes, table_at, lists_fit, table_fits, all_fit, widths_answer, widths_at, in_numbers, lent_bus_tables};
ghost use Rattle.lookup_buses.specs.inner.Requires.{BusListsCover};
ghost use Rattle.lookup.specs.Lookups.{bus_lookups};

use crate::bus_table::{BUS_SIZES, LOOKUP_COUNT_SIZE, NAME_BYTES_SIZE, TUPLE_COUNT_SIZE, table_at};
use crate::tables::{bus_widths, widest};
use expression::choices::{Choices, known, limits_of};
use expression::refusal::Refusal;
use expression::sizes::Limits;
use lookup::sizes::part_start;
use lookup::starts::{name_start, tuple_start};
use lookup::tests::{all_agree, lookups_within};
use lookup::types::LOOKUP_WORDS;

// The sizes say how long the lists are.
fn lists_fit(limits: Limits, lookups: &[u32], names: &[u8], tuples: &[u32], sizes: &[u32]) -> bool
    requires { Sane limits }
    ensures { result ≡ lists_fit limits (lent_bus_tables lookups.now names.now tuples.now sizes.now) }
{
    let n = sizes.len() / BUS_SIZES;
    if sizes.len() % BUS_SIZES != 0 || limits.tables < n {
        return false;
    }
    (lookups.len() == part_start(sizes, BUS_SIZES, LOOKUP_COUNT_SIZE, LOOKUP_WORDS, n))
        & (names.len() == part_start(sizes, BUS_SIZES, NAME_BYTES_SIZE, 1, n))
        & (tuples.len() == part_start(sizes, BUS_SIZES, TUPLE_COUNT_SIZE, 1, n))
}

// One table is within the limits, and its lists are as long as its lookups say.
fn table_fits(limits: Limits, lookups: &[u32], names: &[u8], tuples: &[u32]) -> bool
    requires { Sane limits }
    ensures { result ≡ table_fits limits (bus_lookups lookups.now names.now tuples.now) }
{
    if !lookups_within(limits, lookups, tuples) {
        return false;
    }
    let n = lookups.len() / LOOKUP_WORDS;
    (names.len() == name_start(lookups, n)) & (tuples.len() == tuple_start(lookups, n))
}

// Every table fits, where the lists do.
fn tables_fit(limits: Limits, lookups: &[u32], names: &[u8], tuples: &[u32], sizes: &[u32]) -> bool
    requires { let l : BusTables = lent_bus_tables lookups.now names.now tuples.now sizes.now in Sane limits × BusListsCover l }
    ensures { let l : BusTables = lent_bus_tables lookups.now names.now tuples.now sizes.now in result ≡ every (λ t. table_fits limits (table_at l t)) (table_count bus_sizes l.sizes) }
{
    for t in 0..sizes.len() / BUS_SIZES {
        let own = table_at(lookups, names, tuples, sizes, t);
        if !table_fits(limits, own.lookups, own.names, own.tuples) {
            return false;
        }
    }
    true
}

// Refusal 1.
fn all_fit(limits: Limits, lookups: &[u32], names: &[u8], tuples: &[u32], sizes: &[u32]) -> bool
    requires { Sane limits }
    ensures { result ≡ all_fit limits (lent_bus_tables lookups.now names.now tuples.now sizes.now) }
{
    lists_fit(limits, lookups, names, tuples, sizes)
        && tables_fit(limits, lookups, names, tuples, sizes)
}

// The answer within these limits.
pub fn widths_within(
    limits: Limits,
    lookups: &[u32],
    names: &[u8],
    tuples: &[u32],
    sizes: &[u32],
) -> Result<u64, Refusal>
    requires { Sane limits }
    ensures { result ≡ widths_answer limits (lent_bus_tables lookups.now names.now tuples.now sizes.now) }
{
    if !all_fit(limits, lookups, names, tuples, sizes) {
        return Err(Refusal::SizeAtOdds);
    }
    if !all_agree(lookups) {
        return Err(Refusal::LookupInvalid);
    }
    bus_widths(lookups, names, tuples, sizes)?;
    Ok(u64::from(widest(lookups, names, tuples, sizes)))
}

// The widest bus tuple of several tables, or 0 (`check_bus_widths`), at the choices of the call. `sizes` has for each table how many
// lookups, bytes of names and tuples it has.
pub fn check_bus_widths(
    choices: Choices,
    lookups: &[u32],
    names: &[u8],
    tuples: &[u32],
    sizes: &[u32],
) -> Result<u64, Refusal>
    ensures { in_numbers result
        ≡ in_numbers (widths_at choices (lent_bus_tables lookups.now names.now tuples.now sizes.now)) }
{
    if !known(choices) {
        return Err(Refusal::SizeAtOdds);
    }
    widths_within(limits_of(choices.profile), lookups, names, tuples, sizes)
}
