// The lookups of a table from its interactions: the entry point.
ghost use Rattle.std.specs.Prelude.{◌≡◌, ◌≤◌};
ghost use Rattle.expression.specs.Limits.{Sane};
ghost use Rattle.expression.specs.Refusal.{refusal};
ghost use Rattle.lookup.specs.Lookups.{as_lookups, lookup_count};
ghost use Rattle.lookup_builder.specs.FromInteractions.{Interactions, as_interactions, lookups_built, built_refusal, building, building_at, in_numbers};
ghost use Rattle.lookup_builder.specs.inner.Requires.{BuildSource, build_source, InteractionsSized};

use crate::answer::{Kinds, LentInteractions};
use crate::fits::building_fits;
use crate::locals::locals_verdict;
use crate::words::{interaction_count, write_lookups};
use expression::choices::{Choices, known, limits_of};
use expression::refusal::Refusal;
use expression::sizes::Limits;
use field::modulus::prime_of;
use lookup::refusals::{Columns, form_refusal};
use lookup::table::LentLookups;
use lookup::types::LOOKUP_WORDS;

// Refusals 1 to 6 of lookups of which the first are locals.
fn words_verdict(
    limits: Limits,
    p: u32,
    columns: Columns,
    nodes: &[u32],
    locals: usize,
    lookups: &LentLookups,
) -> Result<(), Refusal>
    requires { Sane limits × (locals ≤ lookup_count (as_lookups lookups.now).lookups) }
    ensures { refusal result ≡ built_refusal limits p columns nodes.now locals (as_lookups lookups.now) }
{
    form_refusal(limits, p, columns, nodes, lookups)?;
    locals_verdict(locals, lookups.records, lookups.tuples)
}

// Refusals 1 to 6 of the lookups that are built. Their words stand in an array, 64 lookups of 9 words, since there is no heap and a refusal
// leaves the lent list as it is.
fn built_verdict(
    limits: Limits,
    p: u32,
    columns: Columns,
    nodes: &[u32],
    kinds: Kinds,
    interactions: &LentInteractions,
) -> Result<(), Refusal>
    requires { let g : Interactions = as_interactions interactions.now in Sane limits × InteractionsSized kinds g.interactions g.weights }
    ensures { refusal result ≡ built_refusal limits p columns nodes.now kinds.locals (lookups_built kinds (as_interactions interactions.now)) }
{
    let mut words = [0u32; 576];
    write_lookups(
        kinds,
        interactions.records,
        interactions.weights,
        &mut words,
    );
    words_verdict(
        limits,
        p,
        columns,
        nodes,
        kinds.locals,
        &LentLookups {
            records: &words[0..LOOKUP_WORDS * interaction_count(kinds)],
            names: interactions.names,
            tuples: interactions.tuples,
            multiplicities: interactions.multiplicities,
            flags: interactions.flags,
            elements: interactions.elements,
        },
    )
}

// The answer within these limits, for words below p.
pub fn build_within(
    limits: Limits,
    p: u32,
    columns: Columns,
    nodes: &[u32],
    kinds: Kinds,
    interactions: &LentInteractions,
    lookups: &mut [u32],
) -> Result<usize, Refusal>
    requires { Sane limits }
    ensures { let s : BuildSource = build_source nodes.now (as_interactions interactions.now) lookups.old in (result ≡ (building limits p columns s.nodes kinds s.given s.lent).answer)
        × (lookups.new ≡ (building limits p columns s.nodes kinds s.given s.lent).lookups) }
{
    if !building_fits(
        limits,
        kinds,
        interactions.records,
        interactions.weights,
        interactions.tuples,
        lookups.len(),
    ) {
        return Err(Refusal::SizeAtOdds);
    }
    built_verdict(limits, p, columns, nodes, kinds, interactions)?;
    write_lookups(kinds, interactions.records, interactions.weights, lookups);
    Ok(LOOKUP_WORDS * interaction_count(kinds))
}

// The lookups of locals, globals and exclusives, in this order (`from_interactions`), at the choices of the call.
pub fn from_interactions(
    choices: Choices,
    columns: Columns,
    nodes: &[u32],
    kinds: Kinds,
    interactions: &LentInteractions,
    lookups: &mut [u32],
) -> Result<usize, Refusal>
    ensures { in_numbers (record { answer = result; lookups = lookups.new })
        ≡ in_numbers (building_at choices columns nodes.now kinds (as_interactions interactions.now) lookups.old) }
{
    if !known(choices) {
        return Err(Refusal::SizeAtOdds);
    }
    build_within(
        limits_of(choices.profile),
        prime_of(choices.field),
        columns,
        nodes,
        kinds,
        interactions,
        lookups,
    )
}
