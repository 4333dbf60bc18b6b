// The words of the lookups that are built.
ghost use Rattle.std.specs.Prelude.{◌≡◌, ◌++◌, ◌*◌, ◌<◌, ◌≤◌, length, drop};
ghost use Rattle.lookup.specs.Lookups.{lookup_words};
ghost use Rattle.lookup_builder.specs.Building.{interaction_count, built_words, built};
ghost use Rattle.lookup_builder.specs.inner.Requires.{InteractionsSized};

use crate::answer::{Kinds, name_bytes, tuple_number};
use crate::weights::built_weight;
use expression::words::{high_half, low_half};
use lookup::types::{
    COLUMN_WORD, EXCLUSIVE_WORD, FLAG_COUNT_WORD, LOOKUP_WORDS, MULTIPLICITY_COUNT_WORD,
    NAME_LENGTH_WORD, SCOPE_WORD, TUPLE_COUNT_WORD, WEIGHT_HIGH_WORD, WEIGHT_WORD,
};

// How many interactions there are.
pub fn interaction_count(kinds: Kinds) -> usize
    requires { interaction_count kinds ≤ 64 }
    ensures { result ≡ interaction_count kinds }
{
    kinds.locals + kinds.globals + kinds.exclusives
}

// The words of lookup i.
fn write_lookup(kinds: Kinds, interactions: &[u32], weights: &[u32], i: usize, out: &mut [u32])
    requires { InteractionsSized kinds interactions.now weights.now × (i < interaction_count kinds) × (length out.old ≡ lookup_words) }
    ensures { out.new ≡ built_words kinds interactions.now weights.now i }
{
    let local = i < kinds.locals;
    let exclusive = kinds.locals + kinds.globals <= i;
    let tuples = tuple_number(interactions, i);
    let weight = built_weight(kinds, interactions, weights, i);
    let name = if local {
        0
    } else {
        name_bytes(interactions, i)
    };
    let flags = if exclusive { tuples } else { 0 };
    out[SCOPE_WORD] = u32::from(!local);
    out[NAME_LENGTH_WORD] = name;
    out[WEIGHT_WORD] = low_half(weight);
    out[COLUMN_WORD] = i as u32;
    out[EXCLUSIVE_WORD] = u32::from(exclusive);
    out[TUPLE_COUNT_WORD] = tuples;
    out[MULTIPLICITY_COUNT_WORD] = tuples;
    out[FLAG_COUNT_WORD] = flags;
    out[WEIGHT_HIGH_WORD] = high_half(weight);
}

// The words of all lookups, at the front of a lent list.
pub fn write_lookups(kinds: Kinds, interactions: &[u32], weights: &[u32], out: &mut [u32])
    requires { InteractionsSized kinds interactions.now weights.now × (lookup_words * interaction_count kinds ≤ length out.old) }
    ensures { out.new ≡ built kinds interactions.now weights.now ++ drop (lookup_words * interaction_count kinds) out.old }
{
    for i in 0..interaction_count(kinds) {
        let at = LOOKUP_WORDS * i;
        write_lookup(
            kinds,
            interactions,
            weights,
            i,
            &mut out[at..at + LOOKUP_WORDS],
        );
    }
}
