// Refusals 1 to 5 and 9 of several tables.
ghost use Rattle.std.specs.Prelude.{◌≡◌, not, ◌||◌, ◌*◌, ◌<◌, ◌≤◌, eqb};
ghost use Rattle.std.proofs.Math.Option.{none};
ghost use Rattle.expression.specs.Limits.{Sane};
ghost use Rattle.expression.specs.Refusal.{refusal, unless};
ghost use Rattle.expression.specs.declared.refusal.Refusal.TheVariants as variant;
ghost use Rattle.lookup.specs.Table.{as_table};
ghost use Rattle.lookup.specs.Tests.{has_lookups, preprocessed_enough};
ghost use Rattle.balance.specs.Tables.{table_sizes, TableLists, table_count, size_start, table_at, as_tables, lists_fit};
ghost use Rattle.balance.specs.inner.Requires.{ListsCovered};
ghost use Rattle.balance_groups.specs.inner.Lowest.{rank, lower, lowest, one_refusal};

use crate::ranges::table_ranges;
use balance::tables::{
    ELEMENT_COUNT_SIZE, FLAG_COUNT_SIZE, LOOKUP_COUNT_SIZE, LentTables, MAIN_COUNT_SIZE,
    MULTIPLICITY_COUNT_SIZE, NAME_BYTE_COUNT_SIZE, NODE_COUNT_SIZE, PREPROCESSED_COUNT_SIZE,
    PUBLIC_VALUE_COUNT_SIZE, TABLE_SIZES, TUPLE_COUNT_SIZE, shape_of,
};
use expression::node::NODE_WORDS;
use expression::numbers::number;
use expression::refusal::Refusal;
use expression::sizes::{Limits, Shape};
use expression::table::LentTraces;
use lookup::refusals::table_refusal;
use lookup::sizes::size_start;
use lookup::table::{LentLookups, LentTable};
use lookup::tests::{has_lookups, preprocessed_enough};
use lookup::types::LOOKUP_WORDS;

// The number of a refusal, which has 32 bits; no refusal comes after all of them.
fn rank(v: Result<(), Refusal>) -> u64
    ensures { result ≡ rank (refusal v) }
{
    match v {
        Ok(()) => 4294967296,
        Err(f) => u64::from(number(f)),
    }
}

// Of two verdicts the one with the lower number.
fn lower(a: Result<(), Refusal>, b: Result<(), Refusal>) -> Result<(), Refusal>
    ensures { refusal result ≡ lower (refusal a) (refusal b) }
{
    if rank(a) <= rank(b) { a } else { b }
}

// Refusal 9: a table with lookups has no shorter preprocessed trace.
fn rows_verdict(shape: Shape, lookups: &[u32]) -> Result<(), Refusal>
    ensures { refusal result ≡ unless (not (has_lookups lookups.now) || preprocessed_enough shape) variant.RowsMissing none }
{
    if has_lookups(lookups) & !preprocessed_enough(shape) {
        return Err(Refusal::RowsMissing);
    }
    Ok(())
}

// The first of refusals 1 to 5 and 9 that one table has.
fn table_verdict(limits: Limits, p: u32, table: &LentTable) -> Result<(), Refusal>
    requires { Sane limits }
    ensures { refusal result ≡ one_refusal limits p (as_table table.now) }
{
    table_refusal(limits, p, table)?;
    rows_verdict(table.traces.shape, table.lookups.records)
}

// The same of table t, whose lists are cut from the lists of all tables.
fn verdict_at(limits: Limits, p: u32, tables: &LentTables, t: usize) -> Result<(), Refusal>
    requires { let l : TableLists = as_tables tables.now in Sane limits × ListsCovered l × (t < table_count l.sizes) }
    ensures { refusal result ≡ one_refusal limits p (table_at (as_tables tables.now) t) }
{
    let ranges = table_ranges(tables.sizes, t);
    table_verdict(
        limits,
        p,
        &LentTable {
            traces: LentTraces {
                shape: shape_of(tables.sizes, t),
                main: &tables.main[ranges.main..ranges.main_end],
                preprocessed: &tables.preprocessed[ranges.preprocessed..ranges.preprocessed_end],
                public_values: &tables.public_values[ranges.public_values..ranges.public_values_end],
            },
            nodes: &tables.nodes[ranges.nodes..ranges.nodes_end],
            lookups: LentLookups {
                records: &tables.lookups.records[ranges.lookups..ranges.lookups_end],
                names: &tables.lookups.names[ranges.names..ranges.names_end],
                tuples: &tables.lookups.tuples[ranges.tuples..ranges.tuples_end],
                multiplicities: &tables
                    .lookups
                    .multiplicities[ranges.multiplicities..ranges.multiplicities_end],
                flags: &tables.lookups.flags[ranges.flags..ranges.flags_end],
                elements: &tables.lookups.elements[ranges.elements..ranges.elements_end],
            },
        },
    )
}

// Of the first refusals of all tables the one with the lowest number: each number is tested over all tables before the next.
pub fn tables_verdict(limits: Limits, p: u32, tables: &LentTables) -> Result<(), Refusal>
    requires { Sane limits × ListsCovered (as_tables tables.now) }
    ensures { let l : TableLists = as_tables tables.now in refusal result ≡ lowest (λ t. one_refusal limits p (table_at l t)) (table_count l.sizes) }
{
    let n = tables.sizes.len() / TABLE_SIZES;
    let mut v = Ok(());
    for t in 0..n {
        let of_table = verdict_at(limits, p, tables, t);
        v = lower(v, of_table);
    }
    v
}

// The tables' parts of a list, in units of so many words, are the whole list.
fn covers(sizes: &[u32], f: usize, unit: usize, len: usize) -> bool
    requires { (f < table_sizes) × (unit ≤ 9) × (table_count sizes.now ≤ 16) }
    ensures { result ≡ eqb len (unit * size_start sizes.now f (table_count sizes.now)) }
{
    len == unit * size_start(sizes, TABLE_SIZES, f, sizes.len() / TABLE_SIZES)
}

// Refusal 1 of the lists as a whole.
pub fn lists_fit(limits: Limits, tables: &LentTables) -> bool
    requires { Sane limits }
    ensures { result ≡ lists_fit limits (as_tables tables.now) }
{
    let tables_fit = (tables.sizes.len() % TABLE_SIZES == 0)
        & (tables.sizes.len() / TABLE_SIZES <= limits.tables);
    if !tables_fit {
        return false;
    }
    covers(tables.sizes, MAIN_COUNT_SIZE, 1, tables.main.len())
        & covers(
            tables.sizes,
            PREPROCESSED_COUNT_SIZE,
            1,
            tables.preprocessed.len(),
        )
        & covers(
            tables.sizes,
            PUBLIC_VALUE_COUNT_SIZE,
            1,
            tables.public_values.len(),
        )
        & covers(
            tables.sizes,
            NODE_COUNT_SIZE,
            NODE_WORDS,
            tables.nodes.len(),
        )
        & covers(
            tables.sizes,
            LOOKUP_COUNT_SIZE,
            LOOKUP_WORDS,
            tables.lookups.records.len(),
        )
        & covers(
            tables.sizes,
            NAME_BYTE_COUNT_SIZE,
            1,
            tables.lookups.names.len(),
        )
        & covers(
            tables.sizes,
            TUPLE_COUNT_SIZE,
            1,
            tables.lookups.tuples.len(),
        )
        & covers(
            tables.sizes,
            MULTIPLICITY_COUNT_SIZE,
            1,
            tables.lookups.multiplicities.len(),
        )
        & covers(tables.sizes, FLAG_COUNT_SIZE, 1, tables.lookups.flags.len())
        & covers(
            tables.sizes,
            ELEMENT_COUNT_SIZE,
            1,
            tables.lookups.elements.len(),
        )
}
