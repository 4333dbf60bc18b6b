// The words of a slot: a count is added, a new slot is made.
ghost use Rattle.std.specs.Prelude.{◌≡◌, ◌+◌, ◌*◌, ◌≤◌, length};
ghost use Rattle.field.specs.inner.Requires.{KnownPrime};
ghost use Rattle.expression.specs.Words.{word};
ghost use Rattle.balance_slots.specs.inner.Work.{added_at, new_words, new_at};
ghost use Rattle.balance_slots.specs.Workspace.{slot_words, tuple_words};

use expression::words::word_at;
use field::word;

// A slot has ten words: the width of its tuple, eight words for the tuple (zeros past the width), and the net.
pub const SLOT_WORDS: usize = 10;

pub const TUPLE_WORDS: usize = 8;

// Where the tuple and the net stand in a slot; the width is its first word.
pub const TUPLE_WORD: usize = 1;

pub const NET_WORD: usize = 9;

// A count is added to slot k's net.
pub fn add_count(p: u32, workspace: &mut [u32], k: usize, count: u32)
    requires { KnownPrime p × (slot_words * k + slot_words ≤ length workspace.old) }
    ensures { workspace.new ≡ added_at p workspace.old k count }
{
    let at = SLOT_WORDS * k + NET_WORD;
    workspace[at] = word::reduce(p, u64::from(workspace[at]) + u64::from(count));
}

// The words of a new slot.
fn put_slot(out: &mut [u32], t: &[u32], count: u32)
    requires { (length out.old ≡ slot_words) × (length t.now ≤ tuple_words) }
    ensures { out.new ≡ new_words t.now count }
{
    out[0] = t.len() as u32;
    for j in 0..TUPLE_WORDS {
        out[j + TUPLE_WORD] = word_at(t, j);
    }
    out[NET_WORD] = count;
}

// A new slot after the first n.
pub fn new_slot(workspace: &mut [u32], n: usize, t: &[u32], count: u32)
    requires { (length t.now ≤ tuple_words) × (slot_words * n + slot_words ≤ length workspace.old) }
    ensures { workspace.new ≡ new_at workspace.old n t.now count }
{
    let start = SLOT_WORDS * n;
    put_slot(&mut workspace[start..start + SLOT_WORDS], t, count);
}
