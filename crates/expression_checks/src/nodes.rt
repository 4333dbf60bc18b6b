// Refusals 2 and 3: the words are below p, and the nodes are known. The loops go by number and not by chunks of three words: a node's operands
// are compared with its number.
ghost use Rattle.std.specs.Prelude.{◌≡◌};
ghost use Rattle.expression.specs.Window.{as_traces};
ghost use Rattle.expression.specs.Tests.{traces_below, constant_below, constants_below, node_known, nodes_known};

use expression::node::{NODE_WORDS, Node, ROW_OFFSETS, node_at};
use expression::sizes::Shape;
use expression::table::LentTraces;
use expression::words::all_below;

// Each word of the traces and of the public values is below p, whatever their sizes.
#[tactic(auto, unfolding(expression::specs::Tests::traces_below))]
pub fn traces_below(p: u32, traces: &LentTraces) -> bool
    ensures { result ≡ traces_below p (as_traces traces.now) }
{
    all_below(p, traces.main)
        & all_below(p, traces.preprocessed)
        & all_below(p, traces.public_values)
}

fn constant_below(p: u32, n: Node) -> bool
    ensures { result ≡ constant_below p n }
{
    match n {
        Node::Constant(a) => a < p,
        _ => true,
    }
}

// Each constant is below p.
pub fn constants_below(p: u32, nodes: &[u32]) -> bool
    ensures { result ≡ constants_below p nodes.now }
{
    let n = nodes.len() / NODE_WORDS;
    let mut ok = true;
    for i in 0..n {
        ok &= constant_below(p, node_at(nodes, i));
    }
    ok
}

fn node_known(shape: Shape, publics: usize, i: usize, n: Node) -> bool
    ensures { result ≡ node_known shape publics i n }
{
    match n {
        Node::Constant(_) | Node::FirstRow | Node::LastRow | Node::Transition => true,
        Node::Main(o, a) => (o < ROW_OFFSETS) & ((a as usize) < shape.main_width),
        Node::Preprocessed(o, a) => (o < ROW_OFFSETS) & ((a as usize) < shape.pre_width),
        Node::PublicValue(a) => (a as usize) < publics,
        Node::Sum(a, b) | Node::Difference(a, b) | Node::Product(a, b) => {
            ((a as usize) < i) & ((b as usize) < i)
        }
        Node::Negation(a) => (a as usize) < i,
        Node::Unknown => false,
    }
}

// Each node is known, where there are so many public values.
pub fn nodes_known(shape: Shape, publics: usize, nodes: &[u32]) -> bool
    ensures { result ≡ nodes_known shape publics nodes.now }
{
    let n = nodes.len() / NODE_WORDS;
    let mut ok = true;
    for i in 0..n {
        ok &= node_known(shape, publics, i, node_at(nodes, i));
    }
    ok
}
