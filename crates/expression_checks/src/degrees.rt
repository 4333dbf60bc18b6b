// Refusal 4: the degrees of the nodes. A degree over the limit is kept at one above it, so that no sum wraps.
ghost use Rattle.std.specs.Prelude.{◌≡◌, true, ◌++◌, ◌+◌, ◌*◌, ◌-◌, ◌<◌, ◌≤◌, length, replicate};
ghost use Rattle.expression.specs.Words.{word, all_within};
ghost use Rattle.expression.specs.Node.{node_count};
ghost use Rattle.expression.specs.Degree.{node_degree, degrees};
ghost use Rattle.expression.specs.Tests.{degrees_low};
ghost use Rattle.expression.specs.Requires.{Slots};

use expression::node::{NODE_WORDS, Node, node_at};
use expression::sizes::Limits;
use expression::words::word_at;

// The degree of node a, or 0 past the last.
fn degree(ds: &[u32; 1024], a: u32) -> u32
    ensures { result ≡ word ds.now a }
{
    word_at(ds, a as usize)
}

// The degree of a node from those of the lower nodes, none over `most` + 1.
#[tactic(auto, unfolding(expression::specs::Degree::node_degree))]
fn node_degree(t: u32, most: u32, n: Node, ds: &[u32; 1024]) -> u32
    requires { (most ≤ 65535) × Slots (most + 2) ds.now }
    ensures { result ≡ node_degree t ds.now n }
{
    match n {
        Node::Constant(_) | Node::PublicValue(_) | Node::Unknown => 0,
        Node::Main(_, _) | Node::Preprocessed(_, _) | Node::FirstRow | Node::LastRow => 1,
        Node::Transition => t,
        Node::Sum(a, b) | Node::Difference(a, b) => degree(ds, a).max(degree(ds, b)),
        Node::Product(a, b) => degree(ds, a) + degree(ds, b),
        Node::Negation(a) => degree(ds, a),
    }
}

// The degrees of the first n nodes, in node order, into zeros: whether none is over `most`; if so, they stand in ds. The compiler is not to put the loop into its
// callers: there the tests of a table's nodes took up to 1.35 of the time.
#[inline(never)]
pub fn fill_degrees(t: u32, most: u32, n: usize, nodes: &[u32], ds: &mut [u32; 1024]) -> bool
    requires { (most ≤ 65535) × (n ≤ 1024) × (3 * n ≤ length nodes.now) × (ds.old ≡ replicate 1024 0) }
    ensures { (result ≡ all_within most (degrees t nodes.now n)) × (result ≡ true → ds.new ≡ degrees t nodes.now n ++ replicate (1024 - n) 0) }
{
    let mut ok = true;
    for i in 0..n {
        let d = node_degree(t, most, node_at(nodes, i), ds);
        ok &= (d <= most);
        ds[i] = d.min(most + 1);
    }
    ok
}

// No degree at t = 1 is over the limit.
#[tactic(auto, unfolding(expression::specs::Tests::degrees_low))]
pub fn degrees_low(limits: Limits, nodes: &[u32]) -> bool
    requires { (limits.degree ≤ 65535) × (node_count nodes.now ≤ 1024) }
    ensures { result ≡ degrees_low limits nodes.now }
{
    // Fixed memory, for the 1,024 nodes at most.
    let mut ds = [0u32; 1024];
    fill_degrees(1, limits.degree, nodes.len() / NODE_WORDS, nodes, &mut ds)
}
