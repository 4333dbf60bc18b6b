// What one lookup of the tables adds to the slots, on all rows of its table.
ghost use Rattle.std.specs.Prelude.{◌≡◌, ◌*◌, ◌<◌, ◌≤◌, length};
ghost use Rattle.lists.specs.Fold.{fold};
ghost use Rattle.lookup.specs.Lookups.{lookup_count};
ghost use Rattle.balance_slots.specs.inner.Work.{in_use, work, step};
ghost use Rattle.balance.specs.Entries.{member_entries};
ghost use Rattle.balance.specs.Members.{member_at};
ghost use Rattle.balance.specs.inner.Requires.{TablesTested};
ghost use Rattle.balance.specs.Tables.{TableLists, as_tables};
ghost use Rattle.balance_slots.specs.Workspace.{slot_words};

use crate::rows::accumulate_rows;
use crate::starts::lookup_starts;
use crate::tables::{
    LentTables, MAIN_COUNT_SIZE, NODE_COUNT_SIZE, PREPROCESSED_COUNT_SIZE, PUBLIC_VALUE_COUNT_SIZE,
    TABLE_SIZES, shape_of, table_of,
};
use balance_slots::hash::Seed;
use expression::node::NODE_WORDS;
use expression::table::LentTraces;
use lookup::sizes::{part_end, part_start};

// Lookup m, with its table's parts of the traces and nodes, and so many slots in use before, and none if one was missing; so many after.
// The bytes of the names are none of its concern.
pub fn accumulate_lookup(
    p: u32,
    tables: &LentTables,
    m: usize,
    seed: Seed,
    workspace: &mut [u32],
    u: Option<usize>,
) -> Option<usize>
    requires { let l : TableLists = as_tables tables.now in TablesTested p l × (m < lookup_count l.lookups.lookups) × (slot_words * in_use u ≤ length workspace.old) }
    ensures { work workspace.new result ≡ fold (step p) (work workspace.old u) (member_entries p (member_at (as_tables tables.now) m)) }
{
    // The bounds have names: within the slices' brackets the calls are no plainer.
    let t = table_of(tables.sizes, m);
    let main_start = part_start(tables.sizes, TABLE_SIZES, MAIN_COUNT_SIZE, 1, t);
    let main_end = part_end(tables.sizes, TABLE_SIZES, MAIN_COUNT_SIZE, 1, t);
    let preprocessed_start = part_start(tables.sizes, TABLE_SIZES, PREPROCESSED_COUNT_SIZE, 1, t);
    let preprocessed_end = part_end(tables.sizes, TABLE_SIZES, PREPROCESSED_COUNT_SIZE, 1, t);
    let public_values_start = part_start(tables.sizes, TABLE_SIZES, PUBLIC_VALUE_COUNT_SIZE, 1, t);
    let public_values_end = part_end(tables.sizes, TABLE_SIZES, PUBLIC_VALUE_COUNT_SIZE, 1, t);
    let nodes_start = part_start(tables.sizes, TABLE_SIZES, NODE_COUNT_SIZE, NODE_WORDS, t);
    let nodes_end = part_end(tables.sizes, TABLE_SIZES, NODE_COUNT_SIZE, NODE_WORDS, t);
    let starts = lookup_starts(tables.lookups.records, tables.lookups.tuples, m);
    accumulate_rows(
        p,
        &LentTraces {
            shape: shape_of(tables.sizes, t),
            main: &tables.main[main_start..main_end],
            preprocessed: &tables.preprocessed[preprocessed_start..preprocessed_end],
            public_values: &tables.public_values[public_values_start..public_values_end],
        },
        &tables.nodes[nodes_start..nodes_end],
        starts,
        &tables.lookups,
        seed,
        workspace,
        u,
    )
}
