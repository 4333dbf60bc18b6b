// A tuple: beta's powers, the combined value and the denominator.
ghost use Rattle.std.specs.Prelude.{◌≡◌, [], ◌∷◌, map, ℕ, ◌<◌, ◌≤◌, ◌+◌, ◌*◌, length};
ghost use Rattle.lists.specs.Count.{joined};
ghost use Rattle.lists.specs.Tab.{tab};
ghost use Rattle.field.specs.inner.Requires.{KnownPrime};
ghost use Rattle.field.specs.Element.{at, Word4, power4, element};
ghost use Rattle.field.specs.Ext.{ext_words};
ghost use Rattle.field_batch.specs.inner.Dot.{residues, Room};
ghost use Rattle.expression.specs.Words.{word};
ghost use Rattle.logup.specs.Tuple.{combine, denominator};
ghost use Rattle.logup_column.specs.inner.Powers.{beta_of, Powers};
ghost use Rattle.logup_column.specs.inner.Own.{FieldValues};

use field::extension;
use field::extension::Ext;
use field_batch::dot;
use field_batch::dot::Sum;

// A tuple has at most so many elements: so many powers of beta stand in a table, of four words each.
pub const POWERS: usize = 8;

pub const POWERS_WORDS: usize = 32;

// The value of a node; a node past the values reads as 0. It is `word_at` at a word, written out here since it stands in the innermost loops.
pub fn value(vals: &[u32], node: u32) -> u32
    ensures { result ≡ word vals.now node }
{
    let at = node as usize;
    if at < vals.len() { vals[at] } else { 0 }
}

// One, beta, and so on to the seventh power, into the 32 words that are lent for them.
pub fn write_powers(p: u32, w: u32, beta: Ext, out: &mut [u32])
    requires { KnownPrime p × (w < p) × Word4 p (ext_words beta) × (length out.old ≡ 32) }
    ensures { out.new ≡ joined (power4 p w (ext_words beta)) 0 8 }
{
    let mut power = Ext::ONE;
    for e in 0..POWERS {
        extension::store(&mut out[4 * e..4 * e + 4], power);
        power = extension::mul(p, w, power, beta);
    }
}

// The eight powers of lookup i, from a table of them: four words each and no `Ext`, as the functions of the constraints take them.
pub fn load_powers(table: &[u32], i: usize) -> [[u32; 4]; 8]
    requires { 32 * i + 32 ≤ length table.now }
    ensures { result ≡ tab (λ e. element table.now (8 * i + e)) 0 8 }
{
    let mut powers = [[0u32; 4]; 8];
    for e in 0..POWERS {
        let power = extension::load(table, POWERS * i + e);
        powers[e] = [power.c0, power.c1, power.c2, power.c3];
    }
    powers
}

// A power as an element.
fn element(power: [u32; 4]) -> Ext
    ensures { ext_words result ≡ at power 0 ∷ at power 1 ∷ at power 2 ∷ at power 3 ∷ [] }
{
    Ext {
        c0: power[0],
        c1: power[1],
        c2: power[2],
        c3: power[3],
    }
}

// A tuple's sum before element j is added. A sum takes four products before it must be reduced, and a tuple has at most eight: the sum is
// reduced once, before the fifth.
fn ready(p: u32, sum: Sum, j: usize) -> Sum
    requires { KnownPrime p }
    ensures { (j ≡ 4 → Room 4 result) × ((n : ℕ) → Room n sum → Room n result) × (residues p result ≡ residues p sum) }
{
    if j == 4 { dot::reduced(p, sum) } else { sum }
}

// The combined value of a tuple: `nodes` are its nodes, and element j of k goes with power k - 1 - j.
pub fn combine(p: u32, w: u32, powers: [[u32; 4]; 8], vals: &[u32], nodes: &[u32]) -> Ext
    requires { FieldValues p w vals.now × Powers p w powers × (length nodes.now ≤ 8) }
    ensures { Word4 p (ext_words result) × (ext_words result ≡ combine p w (beta_of powers) (map (word vals.now) nodes.now)) }
{
    let k = nodes.len();
    let mut sum = dot::none(p);
    for j in 0..k {
        let v = value(vals, nodes[j]);
        sum = dot::more(p, ready(p, sum, j), v, element(powers[k - 1 - j]));
    }
    dot::total(p, sum)
}

// The same of at most four elements: their products fit 64 bits together, so that the loop is short enough to be compiled in place.
pub fn combine_few(p: u32, w: u32, powers: [[u32; 4]; 8], vals: &[u32], nodes: &[u32]) -> Ext
    requires { FieldValues p w vals.now × Powers p w powers × (length nodes.now ≤ 4) }
    ensures { Word4 p (ext_words result) × (ext_words result ≡ combine p w (beta_of powers) (map (word vals.now) nodes.now)) }
{
    let k = nodes.len();
    let mut sum = dot::none(p);
    for j in 0..k {
        let v = value(vals, nodes[j]);
        sum = dot::more(p, sum, v, element(powers[k - 1 - j]));
    }
    dot::total(p, sum)
}

// Alpha minus the combined value.
pub fn denominator(
    p: u32,
    w: u32,
    powers: [[u32; 4]; 8],
    alpha: Ext,
    vals: &[u32],
    nodes: &[u32],
) -> Ext
    requires { FieldValues p w vals.now × Powers p w powers × Word4 p (ext_words alpha) × (length nodes.now ≤ 8) }
    ensures { Word4 p (ext_words result) × (ext_words result ≡ denominator p w (ext_words alpha) (beta_of powers) (map (word vals.now) nodes.now)) }
{
    extension::sub(p, alpha, combine(p, w, powers, vals, nodes))
}
