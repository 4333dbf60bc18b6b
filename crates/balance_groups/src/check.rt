// The check of the groups in order: each local alone, then each bus over all tables.
ghost use Rattle.std.specs.Prelude.{◌≡◌, true, false, ◌++◌, ◌+◌, ◌<◌, ◌≤◌, length};
ghost use Rattle.std.specs.Result.{IfOk};
ghost use Rattle.lists.specs.Fold.{fold};
ghost use Rattle.lookup.specs.Lookups.{lookup_count};
ghost use Rattle.balance.specs.Balance.{visit, unvisited};
ghost use Rattle.balance.specs.inner.Requires.{TablesTested};
ghost use Rattle.balance.specs.Tables.{TableLists, as_tables};
ghost use Rattle.balance_groups.specs.inner.ByNumber.{group_at, groups_to};
ghost use Rattle.balance_groups.specs.inner.Visits.{at_group, visited_of, group_visited};

use crate::accumulate::accumulate_group;
use crate::buses::starts_group;
use balance::tables::LentTables;
use balance_slots::group_refusal::group_refusal;
use balance_slots::hash::Seed;
use expression::refusal::Refusal;
use expression::words::clear;
use lookup::types::LOOKUP_WORDS;

// The refusal of a group, and the number of the next.
#[derive(Clone, Copy, PartialEq, Eq, Debug)]
pub struct GroupRefused {
    pub refusal: Refusal,
    pub next: u64,
}

// The group of lookup m, in a workspace of zeros: the number of the next group, beside the refusal that it has.
fn check_group(
    p: u32,
    tables: &LentTables,
    m: usize,
    seed: Seed,
    workspace: &mut [u32],
    g: u64,
) -> Result<u64, GroupRefused>
    requires { let l : TableLists = as_tables tables.now in TablesTested p l × (m < lookup_count l.lookups.lookups) × (g ≤ 4294967295) }
    ensures { visited_of workspace.new result ≡ group_visited p (length workspace.old) g (group_at (as_tables tables.now) m) }
{
    clear(workspace);
    let u = accumulate_group(p, tables, m, seed, workspace, Some(0));
    let next = g + 1;
    match group_refusal(workspace, u, g) {
        Ok(()) => Ok(next),
        Err(refusal) => Err(GroupRefused { refusal, next }),
    }
}

// The groups of the locals, or of the buses, from group g on, up to the first refusal; answers the number of the next group.
fn check_kind(
    p: u32,
    tables: &LentTables,
    buses: bool,
    seed: Seed,
    workspace: &mut [u32],
    g: u64,
) -> Result<u64, GroupRefused>
    requires { TablesTested p (as_tables tables.now) × (g ≤ 1024) }
    ensures { let l : TableLists = as_tables tables.now in (visited_of workspace.new result ≡ fold (visit p (length workspace.old)) (at_group workspace.old g) (groups_to l buses (lookup_count l.lookups.lookups))) × IfOk result (λ n. n ≤ g + 1024) }
{
    let n = tables.lookups.records.len() / LOOKUP_WORDS;
    let mut next = g;
    for m in 0..n {
        if starts_group(tables.lookups.records, tables.lookups.names, buses, m) {
            next = check_group(p, tables, m, seed, workspace, next)?;
        }
    }
    Ok(next)
}

// All groups of tables that have none of refusals 1 to 12, up to the first refusal; answers the number of the next group.
pub fn check_groups(
    p: u32,
    tables: &LentTables,
    seed: Seed,
    workspace: &mut [u32],
) -> Result<u64, GroupRefused>
    requires { TablesTested p (as_tables tables.now) }
    ensures { let l : TableLists = as_tables tables.now in visited_of workspace.new result ≡ fold (visit p (length workspace.old)) (unvisited (length workspace.old)) (groups_to l false (lookup_count l.lookups.lookups) ++ groups_to l true (lookup_count l.lookups.lookups)) }
{
    clear(workspace);
    let locals = check_kind(p, tables, false, seed, workspace, 0)?;
    check_kind(p, tables, true, seed, workspace, locals)
}
