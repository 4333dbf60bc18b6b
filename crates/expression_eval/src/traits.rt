// The values of the nodes on a row, through the window. The tests of refusals 1 to 3 have passed, so that each read lies within its list.
ghost use Rattle.std.specs.Prelude.{◌≡◌, ◌++◌, ◌+◌, ◌-◌, ◌<◌, ◌≤◌, ◌%◌, eqb, replicate};
ghost use Rattle.expression.specs.Words.{word};
ghost use Rattle.expression.specs.Node.{node_count};
ghost use Rattle.expression.specs.Window.{as_traces, window};
ghost use Rattle.expression.specs.Values.{node_value, row_values};
ghost use Rattle.expression.specs.Requires.{Slots, Evaluable, NodeReadable};
ghost use Rattle.expression_eval.specs.inner.Window.{rows_ahead};

use crate::window::{read, rows_ahead};
use expression::node::{NODE_WORDS, Node, node_at};
use expression::sizes::Shape;
use expression::table::LentTraces;
use field::word;

// The value of a lower node.
fn value(vals: &[u32; 1024], a: u32) -> u32
    requires { a < 1024 }
    ensures { result ≡ word vals.now a }
{
    vals[a as usize]
}

// Row r is the last. The height comes as a number of its own: of one that is read through a reference, it is not known that it fits a word.
fn is_last(r: usize, height: usize) -> bool
    requires { r < height }
    ensures { result ≡ eqb (r + 1) height }
{
    r + 1 == height
}

// The value of a node on row r, from the traces and the values of the lower nodes. Rows of both traces are counted around main's height.
// Always inline, so that two rows share one jump on the node's kind.
#[inline(always)]
#[tactic(auto, unfolding(expression::specs::Values::node_value, expression::specs::Window::window))]
fn node_value(
    p: u32,
    traces: &LentTraces,
    r: usize,
    rows: &[usize; 4],
    n: Node,
    vals: &[u32; 1024],
) -> u32
    requires { NodeReadable p (as_traces traces.now) r n × (rows.now ≡ rows_ahead r traces.now.shape.height) × Slots p vals.now }
    ensures { (result < p) × (result ≡ node_value p (window (as_traces traces.now) r) vals.now n) }
{
    let shape = traces.shape;
    match n {
        Node::Constant(a) => a,
        Node::Main(o, a) => {
            let ahead = rows[o as usize];
            read(traces.main, shape.main_width, shape.height, r, ahead, o, a)
        }
        Node::Preprocessed(o, a) => {
            let ahead = rows[o as usize];
            read(
                traces.preprocessed,
                shape.pre_width,
                shape.height,
                r,
                ahead,
                o,
                a,
            )
        }
        Node::PublicValue(a) => traces.public_values[a as usize],
        Node::FirstRow => u32::from(r == 0),
        Node::LastRow => u32::from(is_last(r, shape.height)),
        Node::Transition => u32::from(!is_last(r, shape.height)),
        Node::Sum(a, b) => word::add(p, value(vals, a), value(vals, b)),
        Node::Difference(a, b) => word::sub(p, value(vals, a), value(vals, b)),
        Node::Product(a, b) => word::mul(p, value(vals, a), value(vals, b)),
        Node::Negation(a) => word::neg(p, value(vals, a)),
        Node::Unknown => 0,
    }
}

// The values of a table's nodes on row r, in node order, into zeros: operands are already computed.
pub fn row_values(p: u32, traces: &LentTraces, nodes: &[u32], r: usize, vals: &mut [u32; 1024])
    requires { Evaluable p (as_traces traces.now) nodes.now × (r < traces.now.shape.height) × (vals.old ≡ replicate 1024 0) }
    ensures { Slots p vals.new × (vals.new ≡ row_values p nodes.now (as_traces traces.now) r ++ replicate (1024 - node_count nodes.now) 0) }
{
    let rows = rows_ahead(r, traces.shape.height);
    let n = nodes.len() / NODE_WORDS;
    for i in 0..n {
        vals[i] = node_value(p, traces, r, &rows, node_at(nodes, i), vals);
    }
}

// The same on row r and on the row after it, one node after the other: while a node of the one row waits for its operands, that of the other is computed.
// Never inline: among the other loops of a caller the compiler lays this one out worse.
#[inline(never)]
pub fn pair_values(
    p: u32,
    traces: &LentTraces,
    nodes: &[u32],
    r: usize,
    vals: &mut [u32; 1024],
    next_vals: &mut [u32; 1024],
)
    requires { Evaluable p (as_traces traces.now) nodes.now × (r < traces.now.shape.height) × (vals.old ≡ replicate 1024 0) × (next_vals.old ≡ replicate 1024 0) }
    ensures { Slots p vals.new × (vals.new ≡ row_values p nodes.now (as_traces traces.now) r ++ replicate (1024 - node_count nodes.now) 0)
        × Slots p next_vals.new × (next_vals.new ≡ row_values p nodes.now (as_traces traces.now) ((r + 1) % traces.now.shape.height) ++ replicate (1024 - node_count nodes.now) 0) }
{
    let rows = rows_ahead(r, traces.shape.height);
    let next = rows[1];
    let next_rows = rows_ahead(next, traces.shape.height);
    let n = nodes.len() / NODE_WORDS;
    for i in 0..n {
        // Both values are made before either is stored, so that they need not wait for each other.
        let node = node_at(nodes, i);
        let current = node_value(p, traces, r, &rows, node, vals);
        let following = node_value(p, traces, next, &next_rows, node, next_vals);
        vals[i] = current;
        next_vals[i] = following;
    }
}
