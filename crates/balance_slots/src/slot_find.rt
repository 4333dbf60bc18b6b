// The slot of a tuple among slots that are not linked, one by one.
ghost use Rattle.std.specs.Prelude.{◌≡◌, ◌&&◌, ◌+◌, ◌*◌, ◌-◌, ◌≤◌, eqb, length, take, drop};
ghost use Rattle.lists.specs.Same.{same_list};
ghost use Rattle.balance_slots.specs.inner.Work.{find_slot};
ghost use Rattle.balance_slots.specs.Workspace.{slot_words, tuple_words, tuple_word};

use crate::slot::{SLOT_WORDS, TUPLE_WORD};

// Whether two lists of words are the same. No `==` of slices: that is a call for each slot whose first word is t's, which took up to 1.65 of the time of a search along a chain.
pub fn same_words(x: &[u32], y: &[u32]) -> bool
    ensures { result ≡ same_list x.now y.now }
{
    if x.len() != y.len() {
        return false;
    }
    for i in 0..x.len() {
        if x[i] != y[i] {
            return false;
        }
    }
    true
}

// Whether slot k, whose tuple has so many words, holds the tuple t.
pub fn holds(workspace: &[u32], k: usize, width: u32, t: &[u32]) -> bool
    requires { (length t.now ≤ tuple_words) × (slot_words * k + slot_words ≤ length workspace.now) }
    ensures { result ≡ (eqb width (length t.now) && same_list (take (length t.now) (drop (slot_words * k + tuple_word) workspace.now)) t.now) }
{
    let start = SLOT_WORDS * k + TUPLE_WORD;
    let n = t.len();
    width as usize == n && same_words(&workspace[start..start + n], t)
}

// The slot of t among those from slot `first` on and before slot n, or n, as in the definition of that name.
pub fn find_slot(workspace: &[u32], first: usize, n: usize, t: &[u32]) -> usize
    requires { (length t.now ≤ tuple_words) × (first ≤ n) × (slot_words * n ≤ length workspace.now) }
    ensures { result ≡ find_slot workspace.now t.now first (n - first) }
{
    for k in first..n {
        if holds(workspace, k, workspace[SLOT_WORDS * k], t) {
            return k;
        }
    }
    n
}
