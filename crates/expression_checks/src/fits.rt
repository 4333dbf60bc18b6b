// Refusal 1 of the traces and of the nodes.
ghost use Rattle.std.specs.Prelude.{◌≡◌};
ghost use Rattle.expression.specs.Tests.{traces_within, nodes_within, traces_fit, nodes_fit};
ghost use Rattle.expression.specs.Window.{Traces, as_traces};
ghost use Rattle.expression.specs.Requires.{Small};

use expression::node::NODE_WORDS;
use expression::sizes::Limits;
use expression::table::LentTraces;

// The sizes of the traces and of the public values are within the limits, and main has columns.
#[tactic(auto, unfolding(expression::specs::Tests::traces_within))]
pub fn traces_within(limits: Limits, traces: &LentTraces) -> bool
    ensures { let t : Traces = as_traces traces.now in result ≡ traces_within limits t.shape t.public_values }
{
    let shape = traces.shape;
    (0 < shape.main_width)
        & (shape.main_width <= limits.main_columns)
        & (shape.height <= limits.height)
        & (shape.pre_width <= limits.pre_columns)
        & (shape.pre_height <= limits.height)
        & (traces.public_values.len() <= limits.public_values)
}

// The nodes are within the limit.
#[tactic(auto, unfolding(expression::specs::Tests::nodes_within))]
pub fn nodes_within(limits: Limits, nodes: &[u32]) -> bool
    ensures { result ≡ nodes_within limits nodes.now }
{
    nodes.len() / NODE_WORDS <= limits.nodes
}

// The traces have the words that their sizes say. The limits have been tested, so that the products stay in 64 bits.
#[tactic(auto, unfolding(expression::specs::Tests::traces_fit))]
pub fn traces_fit(traces: &LentTraces) -> bool
    requires { Small traces.now.shape }
    ensures { let t : Traces = as_traces traces.now in result ≡ traces_fit t.shape t.main t.preprocessed }
{
    let shape = traces.shape;
    (traces.main.len() == shape.main_width * shape.height)
        & (traces.preprocessed.len() == shape.pre_width * shape.pre_height)
}

// Each node has its three words.
#[tactic(auto, unfolding(expression::specs::Tests::nodes_fit))]
pub fn nodes_fit(nodes: &[u32]) -> bool
    ensures { result ≡ nodes_fit nodes.now }
{
    nodes.len() % NODE_WORDS == 0
}
