// The degrees of the tuples of a table.
ghost use Rattle.std.specs.Prelude.{◌≡◌, List, ◌++◌, ℕ, ◌≤◌, length, drop, replicate};
ghost use Rattle.lists.specs.Tab.{tab};
ghost use Rattle.expression.specs.Words.{word};
ghost use Rattle.lookup.specs.Lookups.{element_start};
ghost use Rattle.lookup_degree.specs.Degree.{tuple_degree};
ghost use Rattle.lookup_degree.specs.inner.At.{tuple_degree_at};

use expression::words::word_at;

// The largest degree of these nodes. `degrees` has the degree of each node.
fn tuple_degree(degrees: &[u32], nodes: &[u32]) -> u32
    ensures { result ≡ tuple_degree (word degrees.now) nodes.now }
{
    let mut top = 0;
    for node in nodes {
        top = top.max(word_at(degrees, *node as usize));
    }
    top
}

// The degree of each tuple of a table.
pub fn tuple_degrees(degrees: &[u32], tuples: &[u32], elements: &[u32]) -> [u32; 64]
    requires { let widths : List ℕ = tuples.now in (length widths ≤ 64) × (element_start widths (length widths) ≤ length elements.now) }
    ensures { let widths : List ℕ = tuples.now in result ≡ tab (tuple_degree_at (word degrees.now) widths elements.now) 0 (length widths) ++ drop (length widths) (replicate 64 0) }
{
    let mut out = [0u32; 64];
    let mut start: usize = 0;
    for j in 0..tuples.len() {
        let end = start + tuples[j] as usize;
        out[j] = tuple_degree(degrees, &elements[start..end]);
        start = end;
    }
    out
}
