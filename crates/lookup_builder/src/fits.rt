// Refusal 1 of the interactions.
ghost use Rattle.std.specs.Prelude.{◌≡◌, ◌+◌, ◌*◌, ◌≤◌, eqb, leb, length};
ghost use Rattle.lists.specs.Count.{every};
ghost use Rattle.expression.specs.Limits.{Sane};
ghost use Rattle.lookup_builder.specs.Building.{interaction_words, interaction_count, tuple_number};
ghost use Rattle.lookup_builder.specs.FromInteractions.{building_fits};

use crate::answer::{INTERACTION_WORDS, Kinds, tuple_number};
use crate::weights::first_tuple;
use crate::words::interaction_count;
use expression::sizes::Limits;
use lookup::types::LOOKUP_WORDS;

// There are at most so many interactions. A sum over 64 bits is held at the largest: that is too many as well.
fn few_kinds(most: usize, kinds: Kinds) -> bool
    requires { most ≤ 64 }
    ensures { result ≡ leb (interaction_count kinds) most }
{
    kinds
        .locals
        .saturating_add(kinds.globals)
        .saturating_add(kinds.exclusives)
        <= most
}

// Each global has one tuple.
fn globals_single(kinds: Kinds, interactions: &[u32]) -> bool
    requires { (interaction_count kinds ≤ 64) × (length interactions.now ≡ interaction_words * interaction_count kinds) }
    ensures { result ≡ every (λ j. eqb (tuple_number interactions.now (kinds.locals + j)) 1) kinds.globals }
{
    let mut ok = true;
    for j in 0..kinds.globals {
        ok &= (tuple_number(interactions, kinds.locals + j) == 1);
    }
    ok
}

// The interactions are within the limits, their lists are as long as they say, and the lookups' words have room.
pub fn building_fits(
    limits: Limits,
    kinds: Kinds,
    interactions: &[u32],
    weights: &[u32],
    tuples: &[u32],
    room: usize,
) -> bool
    requires { Sane limits }
    ensures { result ≡ building_fits limits kinds interactions.now weights.now tuples.now room }
{
    if !few_kinds(limits.lookups, kinds) {
        return false;
    }
    let n = interaction_count(kinds);
    if interactions.len() != INTERACTION_WORDS * n {
        return false;
    }
    (tuples.len() <= limits.tuples)
        & (tuples.len() == first_tuple(interactions, n))
        & (weights.len() == tuples.len())
        & globals_single(kinds, interactions)
        & (LOOKUP_WORDS * n <= room)
}
