// A node of the expression table, from its three words: kind, a, b.
ghost use Rattle.std.specs.Prelude.{◌≡◌, ◌+◌, ◌*◌, ◌≤◌, length};
ghost use Rattle.expression.specs.Node.{node_words, decode, node};

// The words of a node: kind, a, b.
pub const NODE_WORDS: usize = 3;

// The row offsets: 0 to 3.
pub const ROW_OFFSETS: u32 = 4;

// An offset is counted in rows from the current one, around the end of the table.
#[derive(Clone, Copy)]
pub enum Node {
    Constant(u32),
    // offset, column
    Main(u32, u32),
    // offset, column
    Preprocessed(u32, u32),
    PublicValue(u32),
    FirstRow,
    LastRow,
    Transition,
    Sum(u32, u32),
    Difference(u32, u32),
    Product(u32, u32),
    Negation(u32),
    // of no known kind: a node too, since refusal 2 reads the nodes before refusal 3 tests their kinds
    Unknown,
}

// The node of a kind, from its two words.
#[tactic(auto, unfolding(crate::specs::Node::decode))]
pub fn decode(k: u32, a: u32, b: u32) -> Node
    ensures { result ≡ decode k a b }
{
    match k {
        0 => Node::Constant(a),
        1 => Node::Main(b, a),
        2 => Node::Main(1, a),
        3 => Node::Preprocessed(b, a),
        4 => Node::Preprocessed(1, a),
        5 => Node::PublicValue(a),
        6 => Node::FirstRow,
        7 => Node::LastRow,
        8 => Node::Transition,
        9 => Node::Sum(a, b),
        10 => Node::Difference(a, b),
        11 => Node::Product(a, b),
        12 => Node::Negation(a),
        _ => Node::Unknown,
    }
}

// Node i of a table.
#[tactic(auto, unfolding(crate::specs::Node::node))]
pub fn node_at(nodes: &[u32], i: usize) -> Node
    requires { node_words * i + node_words ≤ length nodes.now }
    ensures { result ≡ node nodes.now i }
{
    let j = NODE_WORDS * i;
    decode(nodes[j], nodes[j + 1], nodes[j + 2])
}
