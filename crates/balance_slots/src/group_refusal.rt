// The refusal of a group: 16, or 18 with the slot that it names.
ghost use Rattle.std.specs.Prelude.{◌≡◌, ℕ, ◌+◌, ◌*◌, ◌≤◌, ◌<◌, length};
ghost use Rattle.expression.specs.Words.{word};
ghost use Rattle.expression.specs.Refusal.{refusal};
ghost use Rattle.balance_slots.specs.Decimal.{tuple_less};
ghost use Rattle.balance_slots.specs.inner.Work.{in_use, slot_of, work, tuple_at, better_at, least_to, work_refusal};
ghost use Rattle.balance_slots.specs.Workspace.{slot_words, tuple_words};

use crate::decimal::tuple_less;
use crate::slot::{NET_WORD, SLOT_WORDS, TUPLE_WORD};
use expression::refusal::Refusal;
use expression::words::word_at;

// Whether slot k's tuple is before slot b's.
fn slot_less(workspace: &[u32], k: usize, b: usize) -> bool
    requires { (slot_words * k + slot_words ≤ length workspace.now) × (slot_words * b + slot_words ≤ length workspace.now) × (word workspace.now (slot_words * k) ≤ tuple_words) × (word workspace.now (slot_words * b) ≤ tuple_words) }
    ensures { result ≡ tuple_less (tuple_at workspace.now k) (tuple_at workspace.now b) }
{
    let slot = SLOT_WORDS * k;
    let best = SLOT_WORDS * b;
    let width = workspace[slot] as usize;
    let best_width = workspace[best] as usize;
    let start = slot + TUPLE_WORD;
    let best_start = best + TUPLE_WORD;
    tuple_less(
        &workspace[start..start + width],
        &workspace[best_start..best_start + best_width],
    )
}

// Slot k against the best so far: the first by decimal text whose net is not zero, if there is one.
fn better(workspace: &[u32], b: Option<usize>, k: usize) -> Option<usize>
    requires { (slot_words * k + slot_words ≤ length workspace.now) × (slot_of b ≤ k) × ((j : ℕ) → j ≤ k → word workspace.now (slot_words * j) ≤ tuple_words) }
    ensures { (result ≡ better_at workspace.now b k) × (slot_of result ≤ k) }
{
    if workspace[SLOT_WORDS * k + NET_WORD] == 0 {
        return b;
    }
    if let Some(best) = b {
        if !slot_less(workspace, k, best) {
            return b;
        }
    }
    Some(k)
}

// The best of the first n slots.
fn least(workspace: &[u32], n: usize) -> Option<usize>
    requires { (slot_words * n ≤ length workspace.now) × ((j : ℕ) → j < n → word workspace.now (slot_words * j) ≤ tuple_words) }
    ensures { (result ≡ least_to workspace.now n) × (slot_of result ≤ n) }
{
    let mut b = None;
    for k in 0..n {
        b = better(workspace, b, k);
    }
    b
}

// The refusal of group g, whose slots the workspace holds: how many, or none if one was missing.
pub fn group_refusal(workspace: &[u32], u: Option<usize>, g: u64) -> Result<(), Refusal>
    requires { (slot_words * in_use u ≤ length workspace.now) × ((j : ℕ) → j < in_use u → word workspace.now (slot_words * j) ≤ tuple_words) }
    ensures { refusal result ≡ work_refusal g (work workspace.now u) }
{
    let Some(used) = u else {
        return Err(Refusal::WorkspaceFull);
    };
    match least(workspace, used) {
        Some(k) => {
            let net = u64::from(word_at(workspace, SLOT_WORDS * k + NET_WORD));
            Err(Refusal::NetNotZero(g, k as u64, net))
        }
        None => Ok(()),
    }
}
