// The first of refusals 1 to 5 that a whole table has.
ghost use Rattle.std.specs.Prelude.{◌≡◌, ◌≤◌};
ghost use Rattle.std.proofs.Math.Option.{Option};
ghost use Rattle.lists.specs.Count.{or_else};
ghost use Rattle.expression.specs.Limits.{Sane};
ghost use Rattle.expression.specs.Refusal.{refusal};
ghost use Rattle.expression.specs.Node.{node_count};
ghost use Rattle.expression.specs.declared.refusal.Refusal as Refusals;
ghost use Rattle.lookup.specs.Lookups.{as_lookups};
ghost use Rattle.lookup.specs.Table.{as_table};
ghost use Rattle.lookup.specs.Tests.{sizes, words_below};
ghost use Rattle.lookup.specs.Refusals.{shape_of, columns_within, form_sizes, nodes_refusal, lists_refusal, table_refusal, form_refusal};

use crate::table::{LentLookups, LentTable};
use crate::tests::{lists_agree, lookups_fit, lookups_within};
use expression::node::NODE_WORDS;
use expression::refusal::Refusal;
use expression::sizes::{Limits, Shape};
use expression_checks::degrees::degrees_low;
use expression_checks::fits::{nodes_fit, nodes_within, traces_fit, traces_within};
use expression_checks::nodes::{constants_below, nodes_known, traces_below};

// What stands in for the traces of a table where they are not given: how many columns and public values it has.
#[derive(Clone, Copy)]
pub struct Columns {
    pub main: usize,
    pub preprocessed: usize,
    pub public_values: usize,
}

// Refusal 1 of a table. What follows `&&` may be asked only of sizes within the limits.
pub fn sizes(limits: Limits, table: &LentTable) -> bool
    requires { Sane limits }
    ensures { result ≡ sizes limits (as_table table.now) }
{
    (traces_within(limits, &table.traces)
        & nodes_within(limits, table.nodes)
        & lookups_within(limits, table.lookups.records, table.lookups.tuples))
        && (traces_fit(&table.traces) & nodes_fit(table.nodes) & lookups_fit(&table.lookups))
}

// Refusal 2 of a table, whatever its sizes and its lookups.
pub fn words_below(p: u32, table: &LentTable) -> bool
    ensures { result ≡ words_below p (as_table table.now) }
{
    traces_below(p, &table.traces) & constants_below(p, table.nodes)
}

// A table of these columns, as far as its nodes see it.
pub fn shape_of(columns: Columns) -> Shape
    ensures { result ≡ shape_of columns }
{
    Shape {
        main_width: columns.main,
        height: 0,
        pre_width: columns.preprocessed,
        pre_height: 0,
    }
}

pub fn columns_within(limits: Limits, columns: Columns) -> bool
    ensures { result ≡ columns_within limits columns }
{
    (0 < columns.main)
        & (columns.main <= limits.main_columns)
        & (columns.preprocessed <= limits.pre_columns)
        & (columns.public_values <= limits.public_values)
}

// Refusal 1 of a table without its traces.
pub fn form_sizes(limits: Limits, columns: Columns, nodes: &[u32], lookups: &LentLookups) -> bool
    requires { Sane limits }
    ensures { result ≡ form_sizes limits columns nodes.now (as_lookups lookups.now) }
{
    (columns_within(limits, columns)
        & nodes_within(limits, nodes)
        & lookups_within(limits, lookups.records, lookups.tuples))
        && (nodes_fit(nodes) & lookups_fit(lookups))
}

// Refusals 3 and 4 of the nodes, where there are so many public values.
pub fn nodes_refusal(
    limits: Limits,
    shape: Shape,
    publics: usize,
    nodes: &[u32],
) -> Result<(), Refusal>
    requires { (limits.degree ≤ 65535) × (node_count nodes.now ≤ 1024) }
    ensures { (later : Option Refusals.Refusal) → or_else (refusal result) later ≡ nodes_refusal limits shape publics nodes.now later }
{
    if !nodes_known(shape, publics, nodes) {
        return Err(Refusal::NodeInvalid);
    }
    if !degrees_low(limits, nodes) {
        return Err(Refusal::DegreeTooHigh);
    }
    Ok(())
}

// Refusal 5 of every entry point.
fn lists_refusal(nodes: &[u32], lookups: &LentLookups) -> Result<(), Refusal>
    requires { node_count nodes.now ≤ 1024 }
    ensures { refusal result ≡ lists_refusal (node_count nodes.now) (as_lookups lookups.now) }
{
    if lists_agree((nodes.len() / NODE_WORDS) as u32, lookups) {
        Ok(())
    } else {
        Err(Refusal::LookupInvalid)
    }
}

pub fn table_refusal(limits: Limits, p: u32, table: &LentTable) -> Result<(), Refusal>
    requires { Sane limits }
    ensures { refusal result ≡ table_refusal limits p (as_table table.now) }
{
    if !sizes(limits, table) {
        return Err(Refusal::SizeAtOdds);
    }
    if !words_below(p, table) {
        return Err(Refusal::WordTooLarge);
    }
    nodes_refusal(
        limits,
        table.traces.shape,
        table.traces.public_values.len(),
        table.nodes,
    )?;
    lists_refusal(table.nodes, &table.lookups)
}

// The same of a table without its traces.
pub fn form_refusal(
    limits: Limits,
    p: u32,
    columns: Columns,
    nodes: &[u32],
    lookups: &LentLookups,
) -> Result<(), Refusal>
    requires { Sane limits }
    ensures { refusal result ≡ form_refusal limits p columns nodes.now (as_lookups lookups.now) }
{
    if !form_sizes(limits, columns, nodes, lookups) {
        return Err(Refusal::SizeAtOdds);
    }
    if !constants_below(p, nodes) {
        return Err(Refusal::WordTooLarge);
    }
    nodes_refusal(limits, shape_of(columns), columns.public_values, nodes)?;
    lists_refusal(nodes, lookups)
}
