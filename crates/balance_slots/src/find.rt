// The slot of a tuple. The width word of a linked slot is its width + 16 · link.
ghost use Rattle.std.specs.Prelude.{◌≡◌, ◌*◌, ◌≤◌, length};
ghost use Rattle.balance_slots.specs.inner.Work.{find_slot};
ghost use Rattle.balance_slots.specs.inner.Chain.{Chained, plain};
ghost use Rattle.balance_slots.specs.Workspace.{slot_words, tuple_words};

use crate::hash::{Seed, hash};
use crate::slot::SLOT_WORDS;
use crate::slot_find::{find_slot, holds};

// The slot of t among the first n, or n. The slots that are not linked are searched one by one, the others along their chain: the
// newest first, so that the last that holds t is the first in the workspace.
pub fn find(
    seed: Seed,
    heads: &[u32],
    workspace: &[u32],
    linked: usize,
    n: usize,
    t: &[u32],
) -> usize
    requires { Chained seed heads.now workspace.now linked × (linked ≤ n) × (slot_words * n ≤ length workspace.now) × (length t.now ≤ tuple_words) }
    ensures { result ≡ find_slot (plain workspace.now linked) t.now 0 n }
{
    let mut found = find_slot(workspace, linked, n, t);
    let h = hash(seed, t, 0, t.len());
    let mut cur = heads[h] as usize;
    while 0 < cur {
        let k = cur - 1;
        let width = workspace[SLOT_WORDS * k];
        if holds(workspace, k, width % 16, t) {
            found = k;
        }
        cur = width as usize / 16;
    }
    found
}
