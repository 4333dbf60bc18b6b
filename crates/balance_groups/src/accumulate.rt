// What the lookups of a group add to the slots.
ghost use Rattle.std.specs.Prelude.{◌≡◌, ◌*◌, ◌<◌, ◌≤◌, length};
ghost use Rattle.lists.specs.Fold.{fold};
ghost use Rattle.lookup.specs.Lookups.{lookup_count};
ghost use Rattle.balance_slots.specs.inner.Work.{in_use, work, step};
ghost use Rattle.balance.specs.Entries.{entries};
ghost use Rattle.balance.specs.inner.Requires.{TablesTested};
ghost use Rattle.balance.specs.Tables.{TableLists, as_tables};
ghost use Rattle.balance_groups.specs.inner.ByNumber.{group_at};
ghost use Rattle.balance_slots.specs.Workspace.{slot_words};

use crate::buses::same_group;
use balance::accumulate::accumulate_lookup;
use balance::tables::LentTables;
use balance_slots::hash::Seed;
use expression::words::to_usize;
use lookup::starts::name_start;
use lookup::types::{LOOKUP_WORDS, name_length};

// The group of lookup m, by table and in list order, with so many slots in use before, and none if one was missing; so many after.
pub fn accumulate_group(
    p: u32,
    tables: &LentTables,
    m: usize,
    seed: Seed,
    workspace: &mut [u32],
    u: Option<usize>,
) -> Option<usize>
    requires { let l : TableLists = as_tables tables.now in TablesTested p l × (m < lookup_count l.lookups.lookups) × (slot_words * in_use u ≤ length workspace.old) }
    ensures { work workspace.new result ≡ fold (step p) (work workspace.old u) (entries p (group_at (as_tables tables.now) m)) }
{
    let used = u?;
    let n = tables.lookups.records.len() / LOOKUP_WORDS;
    let name_m = name_start(tables.lookups.records, m);
    let mut v = used;
    let mut at: usize = 0;
    for k in 0..n {
        if same_group(
            tables.lookups.records,
            tables.lookups.names,
            m,
            name_m,
            k,
            at,
        ) {
            v = accumulate_lookup(p, tables, k, seed, workspace, Some(v))?;
        }
        at += to_usize(name_length(tables.lookups.records, k));
    }
    Some(v)
}
