// The degree of a lookup of a table: the entry point.
ghost use Rattle.std.specs.Prelude.{◌≡◌, ◌<◌, ◌≤◌};
ghost use Rattle.expression.specs.Limits.{Sane};
ghost use Rattle.lookup.specs.Lookups.{Lookups, as_lookups, lookup_count, lookup_at};
ghost use Rattle.lookup_degree.specs.Degree.{node_degrees, lookup_degree};
ghost use Rattle.lookup_degree.specs.ConstraintDegree.{degree_answer, degree_at, in_numbers};
ghost use Rattle.lookup_degree.specs.Formed.{Formed};

use crate::lookups::lookup_degree;
use crate::tuples::tuple_degrees;
use expression::choices::{Choices, known, limits_of};
use expression::node::NODE_WORDS;
use expression::refusal::Refusal;
use expression::sizes::Limits;
use expression_checks::degrees::fill_degrees;
use field::modulus::prime_of;
use lookup::refusals::{Columns, form_refusal};
use lookup::table::LentLookups;
use lookup::types::LOOKUP_WORDS;

// The degree of lookup i of a table that passed the tests.
fn degree_of(limits: Limits, nodes: &[u32], lookups: &LentLookups, i: usize, t: u32) -> u64
    requires { let l : Lookups = as_lookups lookups.now in Formed limits nodes.now l × (i < lookup_count l.lookups) × (t ≤ 1) }
    ensures { result ≡ lookup_degree (node_degrees t nodes.now) (lookup_at (as_lookups lookups.now) i) }
{
    let mut of_nodes = [0u32; 1024];
    let _low = fill_degrees(
        t,
        limits.degree,
        nodes.len() / NODE_WORDS,
        nodes,
        &mut of_nodes,
    );
    let of_tuples = tuple_degrees(&of_nodes, lookups.tuples, lookups.elements);
    lookup_degree(
        &of_nodes,
        &of_tuples,
        lookups.records,
        lookups.multiplicities,
        lookups.flags,
        i,
    )
}

// The answer within these limits, for words below p.
pub fn degree_within(
    limits: Limits,
    p: u32,
    columns: Columns,
    nodes: &[u32],
    lookups: &LentLookups,
    i: usize,
    t: u32,
) -> Result<u64, Refusal>
    requires { Sane limits }
    ensures { result ≡ degree_answer limits p columns nodes.now (as_lookups lookups.now) i t }
{
    if !((t <= 1) & (i < lookups.records.len() / LOOKUP_WORDS)) {
        return Err(Refusal::SizeAtOdds);
    }
    form_refusal(limits, p, columns, nodes, lookups)?;
    Ok(degree_of(limits, nodes, lookups, i, t))
}

// The degree of lookup i of a table at a transition degree t (`constraint_degree_with_transition`), at the choices of the call.
pub fn constraint_degree(
    choices: Choices,
    columns: Columns,
    nodes: &[u32],
    lookups: &LentLookups,
    i: usize,
    t: u32,
) -> Result<u64, Refusal>
    ensures { in_numbers result ≡ in_numbers (degree_at choices columns nodes.now (as_lookups lookups.now) i t) }
{
    if !known(choices) {
        return Err(Refusal::SizeAtOdds);
    }
    degree_within(
        limits_of(choices.profile),
        prime_of(choices.field),
        columns,
        nodes,
        lookups,
        i,
        t,
    )
}
