// What a lookup adds to the slots on one row, and on all rows.
ghost use Rattle.std.specs.Prelude.{◌≡◌, Some, true, ◌++◌, map, ◌+◌, ◌*◌, ◌-◌, ◌<◌, ◌≤◌, length, replicate};
ghost use Rattle.lists.specs.Fold.{fold};
ghost use Rattle.field.specs.inner.Requires.{KnownPrime};
ghost use Rattle.expression.specs.Words.{word};
ghost use Rattle.expression.specs.Window.{as_traces};
ghost use Rattle.expression.specs.Values.{row_values};
ghost use Rattle.expression.specs.Requires.{Below, Evaluable};
ghost use Rattle.balance_slots.specs.inner.Work.{in_use, work, step};
ghost use Rattle.balance_slots.specs.inner.Chain.{plain_work, ChainsLinked};
ghost use Rattle.balance.specs.inner.LookupStarts.{as_parts, Source, source, StartsWithin, count_from, entries_from, rows_entries};
ghost use Rattle.balance_slots.specs.Workspace.{slot_words, tuple_words};

use crate::starts::LookupStarts;
use balance_slots::add::{Linked, add};
use balance_slots::hash::Seed;
use balance_slots::link::{link_slots, unlink_slots};
use expression::node::NODE_WORDS;
use expression::table::LentTraces;
use expression::words::word_at;
use expression_eval::traits::row_values;
use field::word;
use lookup::table::LentLookups;

// The words of a tuple, and zeros.
fn tuple_values(vals: &[u32], nodes: &[u32]) -> [u32; 8]
    requires { length nodes.now ≤ tuple_words }
    ensures { result ≡ map (word vals.now) nodes.now ++ replicate (tuple_words - length nodes.now) 0 }
{
    let mut out = [0u32; 8];
    for j in 0..nodes.len() {
        out[j] = word_at(vals, nodes[j] as usize);
    }
    out
}

// The entry of one tuple.
fn add_tuple(
    p: u32,
    seed: Seed,
    heads: &mut [u32],
    workspace: &mut [u32],
    u: Linked,
    vals: &[u32],
    nodes: &[u32],
    count: u32,
) -> Option<Linked>
    requires { KnownPrime p × (length nodes.now ≤ tuple_words) × ChainsLinked seed heads.old workspace.old (Some u) }
    ensures { (plain_work workspace.new result ≡ step p (plain_work workspace.old (Some u)) (record { tuple = map (word vals.now) nodes.now; count = count })) × ChainsLinked seed heads.new workspace.new result }
{
    let t = tuple_values(vals, nodes);
    add(
        p,
        seed,
        heads,
        workspace,
        Some(u),
        &t[0..nodes.len()],
        count,
    )
}

// How often tuple k counts: multiplicity × flag.
fn entry_count(p: u32, starts: LookupStarts, vals: &[u32], lookups: &LentLookups, k: usize) -> u32
    requires { KnownPrime p × Below p vals.now × (starts.multiplicities + k < length lookups.now.multiplicities.now) × (starts.exclusive ≡ true → starts.flags + k < length lookups.now.flags.now) }
    ensures { result ≡ count_from p starts lookups.now.multiplicities.now lookups.now.flags.now vals.now k }
{
    let multiplicity = word_at(
        vals,
        lookups.multiplicities[starts.multiplicities + k] as usize,
    );
    if starts.exclusive {
        let flag = word_at(vals, lookups.flags[starts.flags + k] as usize);
        return word::mul(p, multiplicity, flag);
    }
    multiplicity
}

// The lookup on one row, from the values of the nodes there.
fn add_tuples(
    p: u32,
    seed: Seed,
    heads: &mut [u32],
    workspace: &mut [u32],
    u: Linked,
    vals: &[u32],
    starts: LookupStarts,
    lookups: &LentLookups,
) -> Option<Linked>
    requires { KnownPrime p × Below p vals.now × ChainsLinked seed heads.old workspace.old (Some u) × StartsWithin starts (as_parts lookups.now) }
    ensures { (plain_work workspace.new result ≡ fold (step p) (plain_work workspace.old (Some u)) (entries_from p starts (as_parts lookups.now) vals.now)) × ChainsLinked seed heads.new workspace.new result }
{
    let mut v = u;
    let mut at = starts.elements;
    for k in 0..starts.count {
        let end = at + lookups.tuples[starts.tuples + k] as usize;
        let times = entry_count(p, starts, vals, lookups, k);
        v = add_tuple(
            p,
            seed,
            heads,
            workspace,
            v,
            vals,
            &lookups.elements[at..end],
            times,
        )?;
        at = end;
    }
    Some(v)
}

// The lookup on row r. The values of the nodes are zero at the start of every row.
fn accumulate_row(
    p: u32,
    traces: &LentTraces,
    nodes: &[u32],
    r: usize,
    starts: LookupStarts,
    lookups: &LentLookups,
    seed: Seed,
    heads: &mut [u32],
    workspace: &mut [u32],
    u: Linked,
) -> Option<Linked>
    requires { let s : Source = source (as_traces traces.now) nodes.now (as_parts lookups.now) in Evaluable p s.traces s.nodes × (r < s.traces.shape.height) × ChainsLinked seed heads.old workspace.old (Some u) × StartsWithin starts s.parts }
    ensures { let s : Source = source (as_traces traces.now) nodes.now (as_parts lookups.now) in (plain_work workspace.new result ≡ fold (step p) (plain_work workspace.old (Some u)) (entries_from p starts s.parts (row_values p s.nodes s.traces r))) × ChainsLinked seed heads.new workspace.new result }
{
    let mut vals = [0u32; 1024];
    row_values(p, traces, nodes, r, &mut vals);
    let n = nodes.len() / NODE_WORDS;
    add_tuples(p, seed, heads, workspace, u, &vals[0..n], starts, lookups)
}

// The lookup on each row, into linked slots.
fn accumulate_linked(
    p: u32,
    traces: &LentTraces,
    nodes: &[u32],
    starts: LookupStarts,
    lookups: &LentLookups,
    seed: Seed,
    heads: &mut [u32],
    workspace: &mut [u32],
    u: Linked,
) -> Option<Linked>
    requires { let s : Source = source (as_traces traces.now) nodes.now (as_parts lookups.now) in Evaluable p s.traces s.nodes × (s.traces.shape.height ≤ 1048576) × ChainsLinked seed heads.old workspace.old (Some u) × StartsWithin starts s.parts }
    ensures { let s : Source = source (as_traces traces.now) nodes.now (as_parts lookups.now) in (plain_work workspace.new result ≡ fold (step p) (plain_work workspace.old (Some u)) (rows_entries p starts s s.traces.shape.height)) × ChainsLinked seed heads.new workspace.new result }
{
    let mut v = u;
    for r in 0..traces.shape.height {
        v = accumulate_row(
            p, traces, nodes, r, starts, lookups, seed, heads, workspace, v,
        )?;
    }
    Some(v)
}

// The lookup on all rows, with so many slots in use before, and none if one was missing; so many after. The slots in use are linked for
// the search, and unlinked at the end.
pub fn accumulate_rows(
    p: u32,
    traces: &LentTraces,
    nodes: &[u32],
    starts: LookupStarts,
    lookups: &LentLookups,
    seed: Seed,
    workspace: &mut [u32],
    u: Option<usize>,
) -> Option<usize>
    requires { let s : Source = source (as_traces traces.now) nodes.now (as_parts lookups.now) in Evaluable p s.traces s.nodes × (s.traces.shape.height ≤ 1048576) × (slot_words * in_use u ≤ length workspace.old) × StartsWithin starts s.parts }
    ensures { let s : Source = source (as_traces traces.now) nodes.now (as_parts lookups.now) in work workspace.new result ≡ fold (step p) (work workspace.old u) (rows_entries p starts s s.traces.shape.height) }
{
    let used = u?;
    let mut heads = [0u32; 32768];
    let linked = link_slots(seed, &mut heads, workspace, used);
    let v = accumulate_linked(
        p,
        traces,
        nodes,
        starts,
        lookups,
        seed,
        &mut heads,
        workspace,
        Linked { used, linked },
    )?;
    unlink_slots(workspace, v.linked);
    Some(v.used)
}
