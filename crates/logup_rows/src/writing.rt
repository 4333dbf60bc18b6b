// Rows of the trace from the quotients of their tuples, one tuple after the other.
ghost use Rattle.std.specs.Prelude.{◌≡◌, ◌<◌, ◌≤◌, ◌+◌, ◌*◌, length};
ghost use Rattle.field.specs.Element.{Word4};
ghost use Rattle.field.specs.Ext.{ext_words};
ghost use Rattle.lookup.specs.Lookups.{lookup_words, lookup_count, tuple_start};
ghost use Rattle.logup_rows.specs.inner.Sums.{sum_from, Quotients, RowWritten, RowsWritten};

use field::extension;
use field::extension::Ext;
use lookup::types;
use lookup::types::LOOKUP_WORDS;

// The sum of n quotients from quotient `at` on.
fn sum_of(p: u32, quotients: &[u32], at: usize, n: usize) -> Ext
    requires { Quotients p quotients.now × (4 * (at + n) ≤ length quotients.now) }
    ensures { Word4 p (ext_words result) × (ext_words result ≡ sum_from p quotients.now at n) }
{
    let mut sum = Ext::ZERO;
    for k in 0..n {
        sum = extension::add(p, sum, extension::load(quotients, at + k));
    }
    sum
}

// A row whose quotients begin at `start`: the accumulator, then the fractions; their sum.
fn write_row(
    p: u32,
    lookups: &[u32],
    quotients: &[u32],
    start: usize,
    accumulator: Ext,
    out: &mut [u32],
) -> Ext
    requires { Quotients p quotients.now × (length lookups.now ≡ lookup_words * lookup_count lookups.now) × (4 * (start + tuple_start lookups.now (lookup_count lookups.now)) ≤ length quotients.now)
        × (length out.old ≡ 4 * lookup_count lookups.now + 4) }
    ensures { RowWritten p lookups.now quotients.now start (ext_words accumulator) (ext_words result) out.new }
{
    let n = lookups.len() / LOOKUP_WORDS;
    extension::store(&mut out[0..4], accumulator);
    let mut sum = Ext::ZERO;
    let mut at = start;
    for i in 0..n {
        let count = types::tuple_count(lookups, i) as usize;
        let fraction = sum_of(p, quotients, at, count);
        extension::store(&mut out[4 * i + 4..4 * i + 8], fraction);
        sum = extension::add(p, sum, fraction);
        at += count;
    }
    sum
}

// k rows of `size` quotients each, with the accumulator before them; the accumulator after them.
pub fn write_rows(
    p: u32,
    lookups: &[u32],
    quotients: &[u32],
    size: usize,
    k: usize,
    before: Ext,
    out: &mut [u32],
) -> Ext
    requires { Quotients p quotients.now × (length lookups.now ≡ lookup_words * lookup_count lookups.now) × (size ≡ tuple_start lookups.now (lookup_count lookups.now))
        × (length quotients.now ≡ 4 * (k * size)) × (length out.old ≡ k * (4 * lookup_count lookups.now + 4)) × (k ≤ 1048576) × Word4 p (ext_words before) }
    ensures { RowsWritten p lookups.now quotients.now size (ext_words before) k (ext_words result) out.new }
{
    let width = 4 * (lookups.len() / LOOKUP_WORDS) + 4;
    let mut accumulator = before;
    let mut start = 0;
    let mut at = 0;
    for j in 0..k {
        let end = at + width;
        let sum = write_row(p, lookups, quotients, start, accumulator, &mut out[at..end]);
        accumulator = extension::add(p, accumulator, sum);
        start += size;
        at = end;
    }
    accumulator
}
