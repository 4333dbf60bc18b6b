// The elements of the tuples in the order in which the rule of the call takes them: once for each call, so that no row looks at the rule.
ghost use Rattle.std.specs.Prelude.{◌≡◌, cond, ◌++◌, reverse, ◌≤◌, eqb, length, drop};
ghost use Rattle.lookup.specs.Lookups.{element_start};
ghost use Rattle.logup.specs.Rule.{elements_under};

use expression::choices::RULE_2;

// One tuple. No `copy_from_slice`: for that an archive for C wants memmove, beside memcpy for this loop.
fn write_tuple(rule: u32, nodes: &[u32], out: &mut [u32])
    requires { length nodes.now ≡ length out.old }
    ensures { out.new ≡ cond (eqb rule 2) (reverse nodes.now) nodes.now }
{
    for j in 0..nodes.len() {
        out[j] = nodes[j];
    }
    if rule == RULE_2 {
        out.reverse();
    }
}

// All tuples, one after the other, at the front of `out`.
pub fn write_elements(rule: u32, tuples: &[u32], elements: &[u32], out: &mut [u32])
    requires { (length elements.now ≡ element_start tuples.now (length tuples.now)) × (length elements.now ≤ length out.old) }
    ensures { out.new ≡ elements_under rule tuples.now elements.now ++ drop (length elements.now) out.old }
{
    let mut start = 0;
    for &width in tuples {
        let end = start + width as usize;
        write_tuple(rule, &elements[start..end], &mut out[start..end]);
        start = end;
    }
}
