// The degree of one lookup, from the degrees of the nodes and of the tuples.
ghost use Rattle.std.specs.Prelude.{◌≡◌, ◌≤◌};
ghost use Rattle.lookup_degree.specs.inner.At.{FewUpTo, denominator_at, numerator_at, additive_at, exclusive_at, lookup_degree_at};

use crate::sums::{denominator, flagged_counts, flagged_tuples, numerator};
use lookup::starts::{flag_start, multiplicity_start, tuple_start};
use lookup::types::{exclusive, tuple_count};

pub fn denominator_of(tuples: &[u32], lookups: &[u32], i: usize) -> u64
    requires { FewUpTo lookups.now i }
    ensures { (result ≡ denominator_at tuples.now lookups.now i) × (result ≤ 274877906880) }
{
    let first = tuple_start(lookups, i);
    let n = tuple_count(lookups, i) as usize;
    denominator(tuples, first, n)
}

pub fn numerator_of(
    nodes: &[u32],
    tuples: &[u32],
    lookups: &[u32],
    multiplicities: &[u32],
    i: usize,
) -> u64
    requires { FewUpTo lookups.now i }
    ensures { result ≡ numerator_at nodes.now tuples.now lookups.now multiplicities.now i }
{
    let first = tuple_start(lookups, i);
    let start = multiplicity_start(lookups, i);
    let n = tuple_count(lookups, i) as usize;
    let sum = denominator_of(tuples, lookups, i);
    numerator(nodes, multiplicities, start, tuples, first, n, sum)
}

pub fn additive_degree(
    nodes: &[u32],
    tuples: &[u32],
    lookups: &[u32],
    multiplicities: &[u32],
    i: usize,
) -> u64
    requires { FewUpTo lookups.now i }
    ensures { result ≡ additive_at nodes.now tuples.now lookups.now multiplicities.now i }
{
    let sum = denominator_of(tuples, lookups, i);
    let top = numerator_of(nodes, tuples, lookups, multiplicities, i);
    (1 + sum).max(top)
}

fn exclusive_degree(
    nodes: &[u32],
    tuples: &[u32],
    lookups: &[u32],
    multiplicities: &[u32],
    flags: &[u32],
    i: usize,
) -> u64
    requires { FewUpTo lookups.now i }
    ensures { result ≡ exclusive_at nodes.now tuples.now lookups.now multiplicities.now flags.now i }
{
    let first = tuple_start(lookups, i);
    let start = multiplicity_start(lookups, i);
    let flag = flag_start(lookups, i);
    let n = tuple_count(lookups, i) as usize;
    let below = flagged_tuples(nodes, flags, flag, tuples, first, n);
    let above = flagged_counts(nodes, flags, flag, multiplicities, start, n);
    (1 + below).max(above)
}

// The degree of lookup i (`constraint_degree_with_transition`).
pub fn lookup_degree(
    nodes: &[u32],
    tuples: &[u32],
    lookups: &[u32],
    multiplicities: &[u32],
    flags: &[u32],
    i: usize,
) -> u64
    requires { FewUpTo lookups.now i }
    ensures { result ≡ lookup_degree_at nodes.now tuples.now lookups.now multiplicities.now flags.now i }
{
    if exclusive(lookups, i) {
        exclusive_degree(nodes, tuples, lookups, multiplicities, flags, i)
    } else {
        additive_degree(nodes, tuples, lookups, multiplicities, i)
    }
}
