// Sums and maxima of the degrees of one lookup's tuples, multiplicities and flags.
ghost use Rattle.std.specs.Prelude.{◌≡◌, List, ℕ, ◌+◌, ◌*◌, ◌-◌, ◌≤◌};
ghost use Rattle.lists.specs.Count.{total};
ghost use Rattle.expression.specs.Words.{word};
ghost use Rattle.lookup_degree.specs.Sums.{greatest};

use expression::words::word_at;

// The four loops below differ in their terms. One loop over a closure would be no plainer: each call would have to prove what its term is.
// The denominators' degree: the sum over n tuples from `first` on. `degrees` has the degree of each tuple.
pub fn denominator(degrees: &[u32], first: usize, n: usize) -> u64
    requires { (n ≤ 64) × (first ≤ 64) }
    ensures { (result ≡ total (λ k. word degrees.now (first + k)) n) × (result ≤ n * 4294967295) }
{
    let mut sum: u64 = 0;
    for k in 0..n {
        sum += u64::from(word_at(degrees, first + k));
    }
    sum
}

// The numerator's degree: the largest of a multiplicity and the other denominators, whose degree is `sum` in all.
pub fn numerator(
    nodes: &[u32],
    multiplicities: &[u32],
    start: usize,
    degrees: &[u32],
    first: usize,
    n: usize,
    sum: u64,
) -> u64
    requires { (n ≤ 64) × (first ≤ 64) × (start ≤ 64) × (sum ≤ 274877906880) × (total (λ k. word degrees.now (first + k)) n ≤ sum) }
    ensures { result ≡ greatest (λ k. word nodes.now (word multiplicities.now (start + k)) + (sum - word degrees.now (first + k))) n }
{
    let mut top: u64 = 0;
    for k in 0..n {
        let tuple = u64::from(word_at(degrees, first + k));
        let multiplicity = u64::from(word_at(nodes, word_at(multiplicities, start + k) as usize));
        top = top.max(multiplicity + (sum - tuple));
    }
    top
}

// The largest of a flag and its tuple.
pub fn flagged_tuples(
    nodes: &[u32],
    flags: &[u32],
    start: usize,
    degrees: &[u32],
    first: usize,
    n: usize,
) -> u64
    requires { (n ≤ 64) × (first ≤ 64) × (start ≤ 64) }
    ensures { (result ≡ greatest (λ k. word nodes.now (word flags.now (start + k)) + word degrees.now (first + k)) n) × (result ≤ 8589934590) }
{
    let mut top: u64 = 0;
    for k in 0..n {
        let tuple = u64::from(word_at(degrees, first + k));
        let flag = u64::from(word_at(nodes, word_at(flags, start + k) as usize));
        top = top.max(flag + tuple);
    }
    top
}

// The largest of a flag and its multiplicity.
pub fn flagged_counts(
    nodes: &[u32],
    flags: &[u32],
    start: usize,
    multiplicities: &[u32],
    first: usize,
    n: usize,
) -> u64
    requires { (n ≤ 64) × (first ≤ 64) × (start ≤ 64) }
    ensures { let degrees : List ℕ = nodes.now in result ≡ greatest (λ k. word degrees (word flags.now (start + k)) + word degrees (word multiplicities.now (first + k))) n }
{
    let mut top: u64 = 0;
    for k in 0..n {
        let multiplicity = u64::from(word_at(nodes, word_at(multiplicities, first + k) as usize));
        let flag = u64::from(word_at(nodes, word_at(flags, start + k) as usize));
        top = top.max(flag + multiplicity);
    }
    top
}
