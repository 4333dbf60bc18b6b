// The columns of packing: greedily filled, one after the other.
ghost use Rattle.std.specs.Prelude.{◌≡◌, [], ◌+◌, ◌<◌, ◌≤◌, length};
ghost use Rattle.lookup.specs.Lookups.{Lookups, bus_lookups, lookup_words, lookup_count, weight};
ghost use Rattle.lookup.specs.Tests.{weight_limit};
ghost use Rattle.lookup.specs.Requires.{BusNames};
ghost use Rattle.lookup_degree.specs.inner.At.{FewUpTo};
ghost use Rattle.packing_columns.specs.inner.LookupListsRequires.{LookupNumbers};
ghost use Rattle.packing_columns.specs.inner.Columns.{PlanSource, plan_source, top_at, opened, merge, column_degree, fits, column_words};
ghost use Rattle.packing_columns.specs.inner.ColumnsRequires.{ColumnWithin, DegreesSmall, PlanInputs, ColumnTaken, Planned};

use expression::words::{high_half, low_half, saturate_u32, to_u64, to_usize};
use lookup::buses::same_bus;
use lookup::types::{
    COLUMN_WORD, EXCLUSIVE_WORD, FLAG_COUNT_WORD, LOOKUP_WORDS, MULTIPLICITY_COUNT_WORD,
    NAME_LENGTH_WORD, SCOPE_WORD, TUPLE_COUNT_WORD, WEIGHT_HIGH_WORD, WEIGHT_WORD, exclusive,
    flag_count, multiplicity_count, name_length, on_bus, tuple_count, weight,
};
use lookup_buses::order::order;
use lookup_degree::lookups::{denominator_of, numerator_of};

// A column: its first lookup, the degree of its denominators, the larger of that and its numerator's, its weight, and how many
// tuples, multiplicities and flags it has. 64 bits hold the sums of any 64 lookups.
#[derive(Clone, Copy)]
pub struct OpenColumn {
    pub head: usize,
    pub sum: u64,
    pub top: u64,
    pub weight: u64,
    pub tuples: u64,
    pub multiplicities: u64,
    pub flags: u64,
}

// A column, and the place in the order where the next one begins.
#[derive(Clone, Copy)]
pub struct NextColumn {
    pub column: OpenColumn,
    pub end: usize,
}

// The order of the lookups, the first lookup of each column, the columns' words, their number, and whether a bus column's weight is over 2^32 - 1.
// `over` is a mark and no refusal: refusal 6 goes before that of the weights, and is no matter of the plan.
#[derive(Clone, Copy)]
pub struct Plan {
    pub order: [u32; 64],
    pub heads: [u32; 64],
    pub words: [u32; 576],
    pub columns: usize,
    pub over: bool,
}

// The larger of the denominators' degree and the numerator's, of lookup i.
fn top_of(nodes: &[u32], degrees: &[u32], lookups: &[u32], multiplicities: &[u32], i: usize) -> u64
    requires { FewUpTo lookups.now i × DegreesSmall nodes.now }
    ensures { (result ≡ top_at nodes.now degrees.now lookups.now multiplicities.now i) × (result ≤ 549755813888) }
{
    let sum = denominator_of(degrees, lookups, i);
    let top = numerator_of(nodes, degrees, lookups, multiplicities, i);
    sum.max(top)
}

// A column of lookup i alone.
fn opened(
    nodes: &[u32],
    degrees: &[u32],
    lookups: &[u32],
    multiplicities: &[u32],
    i: usize,
) -> OpenColumn
    requires { FewUpTo lookups.now i × (weight lookups.now i ≤ weight_limit lookups.now i) × DegreesSmall nodes.now }
    ensures { (result ≡ opened nodes.now degrees.now lookups.now multiplicities.now i) × ColumnWithin 549755813888 result }
{
    let sum = denominator_of(degrees, lookups, i);
    let top = top_of(nodes, degrees, lookups, multiplicities, i);
    OpenColumn {
        head: i,
        sum,
        top,
        weight: weight(lookups, i),
        tuples: to_u64(tuple_count(lookups, i)),
        multiplicities: to_u64(multiplicity_count(lookups, i)),
        flags: to_u64(flag_count(lookups, i)),
    }
}

// Column a with column b merged into it.
fn merge(a: OpenColumn, b: OpenColumn) -> OpenColumn
    requires { ColumnWithin 35184372088832 a × ColumnWithin 549755813888 b }
    ensures { result ≡ merge a b }
{
    OpenColumn {
        head: a.head,
        sum: a.sum + b.sum,
        top: (a.top + b.sum).max(a.sum + b.top),
        weight: a.weight + b.weight,
        tuples: a.tuples + b.tuples,
        multiplicities: a.multiplicities + b.multiplicities,
        flags: a.flags + b.flags,
    }
}

fn column_degree(column: OpenColumn) -> u64
    requires { column.sum ≤ 70368744177664 }
    ensures { result ≡ column_degree column }
{
    (1 + column.sum).max(column.top)
}

// Whether lookup i is on the bus of a column's first lookup, and the column that they make is within the limit.
fn fits(
    lookups: &[u32],
    names: &[u8],
    limit: u64,
    head: usize,
    i: usize,
    merged: OpenColumn,
) -> bool
    requires { let l : Lookups = bus_lookups lookups.now names.now [] in BusNames l.lookups l.names × (head < lookup_count l.lookups) × (i < lookup_count l.lookups) × (merged.sum ≤ 70368744177664) }
    ensures { let l : Lookups = bus_lookups lookups.now names.now [] in result ≡ fits l.lookups l.names limit head i merged }
{
    same_bus(lookups, names, true, head, i) & (column_degree(merged) <= limit)
}

// The column that begins at place k of the order: it takes the lookups that follow as long as they join.
fn next_column(
    nodes: &[u32],
    degrees: &[u32],
    lookups: &[u32],
    names: &[u8],
    multiplicities: &[u32],
    limit: u64,
    order: &[u32],
    k: usize,
) -> NextColumn
    requires { let s : PlanSource = plan_source nodes.now degrees.now lookups.now names.now multiplicities.now limit in PlanInputs s.nodes s.lookups s.names × LookupNumbers (lookup_count s.lookups) order.now × (k < length order.now) }
    ensures { let s : PlanSource = plan_source nodes.now degrees.now lookups.now names.now multiplicities.now limit in ColumnTaken s order.now k result }
{
    let first = to_usize(order[k]);
    let mut open = opened(nodes, degrees, lookups, multiplicities, first);
    for end in k + 1..order.len() {
        let i = to_usize(order[end]);
        let alone = opened(nodes, degrees, lookups, multiplicities, i);
        let merged = merge(open, alone);
        if !fits(lookups, names, limit, open.head, i, merged) {
            return NextColumn { column: open, end };
        }
        open = merged;
    }
    NextColumn {
        column: open,
        end: order.len(),
    }
}

// The words of a column, the k-th.
fn put_column(lookups: &[u32], k: u32, column: OpenColumn, out: &mut [u32])
    requires { (length out.old ≡ lookup_words) × (column.head < lookup_count lookups.now) }
    ensures { out.new ≡ column_words lookups.now k column }
{
    out[SCOPE_WORD] = u32::from(on_bus(lookups, column.head));
    out[NAME_LENGTH_WORD] = name_length(lookups, column.head);
    out[WEIGHT_WORD] = low_half(column.weight);
    out[COLUMN_WORD] = k;
    out[EXCLUSIVE_WORD] = u32::from(exclusive(lookups, column.head));
    out[TUPLE_COUNT_WORD] = saturate_u32(column.tuples);
    out[MULTIPLICITY_COUNT_WORD] = saturate_u32(column.multiplicities);
    out[FLAG_COUNT_WORD] = saturate_u32(column.flags);
    out[WEIGHT_HIGH_WORD] = high_half(column.weight);
}

// The plan of a table. Nothing is written before it is known whether a kept merge is over 2^32 - 1.
pub fn make_plan(
    nodes: &[u32],
    degrees: &[u32],
    lookups: &[u32],
    names: &[u8],
    multiplicities: &[u32],
    limit: u64,
) -> Plan
    requires { let s : PlanSource = plan_source nodes.now degrees.now lookups.now names.now multiplicities.now limit in PlanInputs s.nodes s.lookups s.names }
    ensures { let s : PlanSource = plan_source nodes.now degrees.now lookups.now names.now multiplicities.now limit in Planned s result }
{
    let n = lookups.len() / LOOKUP_WORDS;
    let order = order(lookups, names, true);
    let mut heads = [0u32; 64];
    let mut words = [0u32; 576];
    let mut over = false;
    let mut columns: usize = 0;
    let mut k = 0;
    while k < n {
        let next = next_column(
            nodes,
            degrees,
            lookups,
            names,
            multiplicities,
            limit,
            &order[0..n],
            k,
        );
        let column = next.column;
        heads[columns] = column.head as u32;
        let at = LOOKUP_WORDS * columns;
        let end = at + LOOKUP_WORDS;
        put_column(lookups, columns as u32, column, &mut words[at..end]);
        over |= on_bus(lookups, column.head) & (4294967295 < column.weight);
        columns += 1;
        k = next.end;
    }
    Plan {
        order,
        heads,
        words,
        columns,
        over,
    }
}
