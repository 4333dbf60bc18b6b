// A signed multiplicity with a bound on its magnitude.
ghost use Rattle.std.specs.Prelude.{◌≡◌, List, ℕ, ◌+◌, ◌*◌, ◌<◌, ◌≤◌, ◌/◌, length, ltb, ◌&&◌};
ghost use Rattle.std.proofs.Math.Option.{none};
ghost use Rattle.field.specs.inner.Requires.{KnownPrime};
ghost use Rattle.expression.specs.Node.{node_words};
ghost use Rattle.lookup_count.specs.Count.{constant_kind, negation_kind, count_of, residue, count_refusal, negation_refusal, counted, nodes_after, from_i32_at, negated_at, in_numbers};

use expression::choices::{Choices, known, limits_of};
use expression::node::NODE_WORDS;
use expression::refusal::Refusal;
use expression::sizes::Limits;
use field::modulus::prime_of;
use field::word::{neg, reduce};

// The kinds of the nodes that are added.
const CONSTANT_KIND: u32 = 0;

const NEGATION_KIND: u32 = 12;

#[derive(Clone, Copy)]
pub struct Count {
    pub node: u32,
    pub weight: u32,
}

// A count that the table's constraints keep within a bound.
pub fn bounded(node: u32, weight: u32) -> Count
    ensures { result ≡ count_of node weight }
{
    Count { node, weight }
}

// A provided entry, which the height bound leaves out.
pub fn provided(node: u32) -> Count
    ensures { result ≡ count_of node 0 }
{
    bounded(node, 0)
}

// The word of a number, from its sign and its magnitude.
fn residue(p: u32, minus: bool, magnitude: u32) -> u32
    requires { KnownPrime p }
    ensures { result ≡ residue p minus magnitude }
{
    let m = reduce(p, u64::from(magnitude));
    if minus { neg(p, m) } else { m }
}

// The table has room for one node more, within the limits.
fn has_room(limits: Limits, nodes: &[u32], used: usize) -> bool
    ensures { result ≡ (ltb used limits.nodes && ltb used (length nodes.now / node_words)) }
{
    (used < limits.nodes) & (used < nodes.len() / NODE_WORDS)
}

// Node `used`, at the table's end.
fn push(nodes: &mut [u32], used: usize, kind: u32, a: u32)
    requires { (used < 1024) × (used < length nodes.old / node_words) }
    ensures { nodes.new ≡ nodes_after none nodes.old used kind a }
{
    let at = NODE_WORDS * used;
    nodes[at..at + NODE_WORDS].copy_from_slice(&[kind, a, 0]);
}

// The count of a number, from its sign and its magnitude.
pub fn constant(
    limits: Limits,
    p: u32,
    nodes: &mut [u32],
    used: usize,
    minus: bool,
    magnitude: u32,
) -> Result<Count, Refusal>
    requires { KnownPrime p × (limits.nodes ≤ 1024) }
    ensures { let before : List ℕ = nodes.old in (result ≡ counted (count_refusal limits before used) used magnitude)
        × (nodes.new ≡ nodes_after (count_refusal limits before used) before used constant_kind (residue p minus magnitude)) }
{
    if !has_room(limits, nodes, used) {
        return Err(Refusal::SizeAtOdds);
    }
    push(nodes, used, CONSTANT_KIND, residue(p, minus, magnitude));
    Ok(bounded(used as u32, magnitude))
}

// The count of a number, at the choices of the call.
pub fn from_i32(choices: Choices, nodes: &mut [u32], used: usize, x: i32) -> Result<Count, Refusal>
    ensures { in_numbers (record { answer = result; nodes = nodes.new }) ≡ in_numbers (from_i32_at choices nodes.old used x) }
{
    if !known(choices) {
        return Err(Refusal::SizeAtOdds);
    }
    constant(
        limits_of(choices.profile),
        prime_of(choices.field),
        nodes,
        used,
        x < 0,
        x.unsigned_abs(),
    )
}

// The count with the other sign.
pub fn negation(
    limits: Limits,
    nodes: &mut [u32],
    used: usize,
    count: Count,
) -> Result<Count, Refusal>
    requires { limits.nodes ≤ 1024 }
    ensures { let before : List ℕ = nodes.old in (result ≡ counted (negation_refusal limits before used count.node) used count.weight)
        × (nodes.new ≡ nodes_after (negation_refusal limits before used count.node) before used negation_kind count.node) }
{
    if !has_room(limits, nodes, used) {
        return Err(Refusal::SizeAtOdds);
    }
    if used <= count.node as usize {
        return Err(Refusal::NodeInvalid);
    }
    push(nodes, used, NEGATION_KIND, count.node);
    Ok(bounded(used as u32, count.weight))
}

// Negation, at the choices of the call.
pub fn negated(
    choices: Choices,
    nodes: &mut [u32],
    used: usize,
    count: Count,
) -> Result<Count, Refusal>
    ensures { in_numbers (record { answer = result; nodes = nodes.new }) ≡ in_numbers (negated_at choices nodes.old used count) }
{
    if !known(choices) {
        return Err(Refusal::SizeAtOdds);
    }
    negation(limits_of(choices.profile), nodes, used, count)
}
