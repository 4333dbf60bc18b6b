// An entry is added to the slots in the workspace.
ghost use Rattle.std.specs.Prelude.{◌≡◌, ◌+◌, ◌*◌, ◌≤◌, Some, length};
ghost use Rattle.field.specs.inner.Requires.{KnownPrime};
ghost use Rattle.balance_slots.specs.inner.Work.{new_at, add_nonzero_at, step};
ghost use Rattle.balance_slots.specs.inner.Chain.{Chained, SlotsLinked, ChainsLinked, plain, plain_work};
ghost use Rattle.balance_slots.specs.Workspace.{slot_words, tuple_words};

use crate::find::find;
use crate::hash::Seed;
use crate::link::link;
use crate::slot::{SLOT_WORDS, add_count, new_slot};
use expression::words::clear;

// How many slots are in use, and how many of them are linked.
#[derive(Clone, Copy)]
pub struct Linked {
    pub used: usize,
    pub linked: usize,
}

// A new slot after the first n; how many are linked then.
fn add_slot(
    seed: Seed,
    heads: &mut [u32],
    workspace: &mut [u32],
    linked: usize,
    n: usize,
    t: &[u32],
    count: u32,
) -> usize
    requires { Chained seed heads.old workspace.old linked × (linked ≤ n) × (length t.now ≤ tuple_words) × (slot_words * n + slot_words ≤ length workspace.old) }
    ensures { SlotsLinked seed heads.new workspace.new result 0 (n + 1) (new_at (plain workspace.old linked) n t.now count) }
{
    new_slot(workspace, n, t, count);
    if linked < n {
        return linked;
    }
    link(seed, heads, workspace, n)
}

// An entry goes to its tuple's slot, or to a new one. Without room all is zero, and there is no answer.
fn add_nonzero(
    p: u32,
    seed: Seed,
    heads: &mut [u32],
    workspace: &mut [u32],
    v: Linked,
    t: &[u32],
    count: u32,
) -> Option<Linked>
    requires { KnownPrime p × (length t.now ≤ tuple_words) × ChainsLinked seed heads.old workspace.old (Some v) }
    ensures { (plain_work workspace.new result ≡ add_nonzero_at p (plain_work workspace.old (Some v)) t.now count) × ChainsLinked seed heads.new workspace.new result }
{
    let n = v.used;
    let k = find(seed, heads, workspace, v.linked, n, t);
    if k < n {
        add_count(p, workspace, k, count);
        return Some(v);
    }
    if workspace.len() - SLOT_WORDS * n < SLOT_WORDS {
        clear(workspace);
        clear(heads);
        return None;
    }
    let linked = add_slot(seed, heads, workspace, v.linked, n, t, count);
    Some(Linked {
        used: n + 1,
        linked,
    })
}

// A count of 0 is skipped, and nothing is added after a slot was missing. None: a slot was missing.
pub fn add(
    p: u32,
    seed: Seed,
    heads: &mut [u32],
    workspace: &mut [u32],
    u: Option<Linked>,
    t: &[u32],
    count: u32,
) -> Option<Linked>
    requires { KnownPrime p × (length t.now ≤ tuple_words) × ChainsLinked seed heads.old workspace.old u }
    ensures { (plain_work workspace.new result ≡ step p (plain_work workspace.old u) (record { tuple = t.now; count = count })) × ChainsLinked seed heads.new workspace.new result }
{
    let v = u?;
    if count == 0 {
        return Some(v);
    }
    add_nonzero(p, seed, heads, workspace, v, t, count)
}
