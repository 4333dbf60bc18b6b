// The links of the slots. The width word of a linked slot is its width + 16 · link, so that the link has 28 bits.
ghost use Rattle.std.specs.Prelude.{◌≡◌, ◌+◌, ◌*◌, ◌≤◌, length, replicate};
ghost use Rattle.balance_slots.specs.inner.Hash.{chains};
ghost use Rattle.balance_slots.specs.inner.Chain.{Chained, SlotsLinked, plain};
ghost use Rattle.balance_slots.specs.Workspace.{slot_words};

use crate::hash::{Seed, hash};
use crate::slot::{SLOT_WORDS, TUPLE_WORD};

// The greatest number of slots before a linked one: its link has 28 bits.
const MOST_LINKED: usize = 268435455;

// Slot i is linked, if the slots before it are; how many are linked then. A width above 8 and a link too great for its bits are left out.
pub fn link(seed: Seed, heads: &mut [u32], workspace: &mut [u32], i: usize) -> usize
    requires { Chained seed heads.old workspace.old i × (slot_words * i + slot_words ≤ length workspace.old) }
    ensures { SlotsLinked seed heads.new workspace.new result i (i + 1) (plain workspace.old i) }
{
    let slot = SLOT_WORDS * i;
    let width = workspace[slot];
    if 8 < width {
        return i;
    }
    if MOST_LINKED < i {
        return i;
    }
    let h = hash(seed, workspace, slot + TUPLE_WORD, width as usize);
    let newest = heads[h];
    let linked = i + 1;
    workspace[slot] = width + 16 * newest;
    heads[h] = linked as u32;
    linked
}

// The first n slots are linked, or those before the first that is left out; how many are linked.
pub fn link_slots(seed: Seed, heads: &mut [u32], workspace: &mut [u32], n: usize) -> usize
    requires { (heads.old ≡ replicate chains 0) × (slot_words * n ≤ length workspace.old) }
    ensures { SlotsLinked seed heads.new workspace.new result 0 n workspace.old }
{
    for i in 0..n {
        if link(seed, heads, workspace, i) == i {
            return i;
        }
    }
    n
}

// The links of the first n slots are taken out.
pub fn unlink_slots(workspace: &mut [u32], n: usize)
    requires { slot_words * n ≤ length workspace.old }
    ensures { workspace.new ≡ plain workspace.old n }
{
    for i in 0..n {
        let slot = SLOT_WORDS * i;
        workspace[slot] = workspace[slot] % 16;
    }
}
