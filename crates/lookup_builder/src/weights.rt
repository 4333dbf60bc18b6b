// The weight of a lookup from those of its tuples.
ghost use Rattle.std.specs.Prelude.{◌≡◌, ◌*◌, ◌<◌, ◌≤◌, length};
ghost use Rattle.lists.specs.Count.{total};
ghost use Rattle.expression.specs.Words.{word};
ghost use Rattle.lookup_degree.specs.Sums.{greatest};
ghost use Rattle.lookup_builder.specs.Building.{interaction_count, first_tuple, built_weight};
ghost use Rattle.lookup_builder.specs.inner.Requires.{InteractionsSized};

use crate::answer::{INTERACTION_WORDS, Kinds, TUPLE_NUMBER_WORD, tuple_number};
use expression::words::total_of;

// The number of interaction i's first tuple among all tuples.
pub fn first_tuple(interactions: &[u32], i: usize) -> usize
    requires { i ≤ 64 }
    ensures { (result ≡ first_tuple interactions.now i) × (result ≤ i * 4294967295) }
{
    total_of(interactions, INTERACTION_WORDS, TUPLE_NUMBER_WORD, i)
}

// The sum of weights, exact in 64 bits.
fn sum_of(weights: &[u32]) -> u64
    requires { length weights.now ≤ 64 }
    ensures { result ≡ total (word weights.now) (length weights.now) }
{
    let mut sum = 0;
    for weight in weights {
        sum += u64::from(*weight);
    }
    sum
}

// The largest of weights, or 0.
fn largest_of(weights: &[u32]) -> u32
    ensures { result ≡ greatest (word weights.now) (length weights.now) }
{
    let mut top: u32 = 0;
    for weight in weights {
        top = top.max(*weight);
    }
    top
}

// The weight of lookup i: a local's tuples add up, of an exclusive's branches the largest counts.
pub fn built_weight(kinds: Kinds, interactions: &[u32], weights: &[u32], i: usize) -> u64
    requires { InteractionsSized kinds interactions.now weights.now × (i < interaction_count kinds) }
    ensures { result ≡ built_weight kinds interactions.now weights.now i }
{
    let start = first_tuple(interactions, i);
    let end = start + tuple_number(interactions, i) as usize;
    if i < kinds.locals {
        sum_of(&weights[start..end])
    } else {
        u64::from(largest_of(&weights[start..end]))
    }
}
