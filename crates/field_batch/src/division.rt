// A quotient by an element is a product with its cofactor and a quotient by its norm, which is a word. The product of all norms is inverted,
// and each single inverse is taken from that one (Montgomery's trick).
ghost use Rattle.std.specs.Prelude.{◌≡◌, ◌<◌, ◌≤◌, ◌*◌, length};
ghost use Rattle.lists.specs.Count.{joined};
ghost use Rattle.field.specs.Modulus.{Certificate};
ghost use Rattle.field.specs.inner.Requires.{KnownPrime};
ghost use Rattle.field.specs.Word.{mul_m};
ghost use Rattle.field.specs.Element.{Word4};
ghost use Rattle.field.specs.Ext.{ext_words};
ghost use Rattle.field_batch.specs.inner.Quotients.{quotient, quotient_at, product_m, kept, factor_from_last, kept_from_last, Divisible};

use field::extension::Ext;
use field::modulus::{BABYBEAR, KOALABEAR};
use field::{extension, word};

// A quotient, and the inverse of the product without its factor.
#[derive(Clone, Copy)]
pub struct Split {
    pub quotient: Ext,
    pub inverse: u32,
}

// a·b. Most multiplicities are 1, and so are the factors of denominators that are not needed: these take no product.
fn times(p: u32, a: u32, b: u32) -> u32
    requires { KnownPrime p × (a < p) × (b < p) }
    ensures { (result < p) × (result ≡ mul_m p a b) }
{
    if a == 1 {
        return b;
    }
    word::mul(p, a, b)
}

// What is kept of a denominator, with the product before it: four words, as an element has. Where the multiplicity is 0 the norm is not needed.
fn keep<const P: u32>(w: u32, m: u32, d: Ext, product: u32) -> Ext
    requires { KnownPrime P × (w < P) × Certificate P w × Word4 P (ext_words d) }
    ensures { ext_words result ≡ kept P w m (ext_words d) product }
{
    if m == 0 {
        return Ext {
            c0: 0,
            c1: 0,
            c2: 1,
            c3: product,
        };
    }
    let (x, y) = extension::norm2(P, w, d);
    Ext {
        c0: x,
        c1: y,
        // The norm, and 1 for 0.
        c2: extension::norm_of(P, w, d, x, y).max(1),
        c3: product,
    }
}

// The product of all factors, from the last on, and what is kept of each denominator. The loop goes by number: it reads from the end what it
// writes from the front, and chunks of both would be no plainer.
fn products<const P: u32>(w: u32, ms: &[u32], ds: &[u32], held: &mut [u32]) -> u32
    requires { Divisible P w ms.now ds.now × (length held.old ≡ 4 * length ms.now) }
    ensures { (result < P) × (result ≡ product_m P (factor_from_last P w ms.now ds.now) (length ms.now))
        × (held.new ≡ joined (kept_from_last P w ms.now ds.now) 0 (length ms.now)) }
{
    let n = ms.len();
    let mut product: u32 = 1;
    for j in 0..n {
        let i = n - 1 - j;
        let k = keep::<P>(w, ms[i], extension::load(ds, i), product);
        let at = 4 * j;
        extension::store(&mut held[at..at + 4], k);
        product = times(P, k.c2, product);
    }
    product
}

// m ÷ d and the inverse of the product before d, from what is kept of d and the inverse of the product with it.
fn step<const P: u32>(w: u32, m: u32, d: Ext, k: Ext, inverse: u32) -> Split
    requires { KnownPrime P × (w < P) × Certificate P w × (m < P) × Word4 P (ext_words d) × Word4 P (ext_words k) × (inverse < P)
        × (ext_words k ≡ kept P w m (ext_words d) k.c3) × (mul_m P (mul_m P k.c3 k.c2) inverse ≡ 1) }
    ensures { (result.inverse < P) × (mul_m P k.c3 result.inverse ≡ 1) × (ext_words result.quotient ≡ quotient P w m (ext_words d)) }
{
    if m == 0 {
        return Split {
            quotient: Ext::ZERO,
            inverse,
        };
    }
    // m ÷ norm: the inverse of the factor is that of the product with it, times the product before it.
    let t = times(P, m, word::mul(P, inverse, k.c3));
    Split {
        quotient: extension::cofactor_times(P, w, d, k.c0, k.c1, t),
        inverse: word::mul(P, inverse, k.c2),
    }
}

// Each denominator becomes its quotient, from the inverse of the product.
fn quotients<const P: u32>(w: u32, ms: &[u32], held: &[u32], inverse: u32, ds: &mut [u32])
    requires { Divisible P w ms.now ds.old × (inverse < P)
        × (held.now ≡ joined (kept_from_last P w ms.now ds.old) 0 (length ms.now))
        × (mul_m P (product_m P (factor_from_last P w ms.now ds.old) (length ms.now)) inverse ≡ 1) }
    ensures { ds.new ≡ joined (quotient_at P w ms.now ds.old) 0 (length ms.now) }
{
    let n = ms.len();
    let mut rest = inverse;
    for i in 0..n {
        let d = extension::load(ds, i);
        let k = extension::load(held, n - 1 - i);
        let s = step::<P>(w, ms[i], d, k, rest);
        let at = 4 * i;
        extension::store(&mut ds[at..at + 4], s.quotient);
        rest = s.inverse;
    }
}

// The same for one of the two primes, compiled for each by itself: with p a constant, all reductions are by that constant.
fn divide_by<const P: u32>(w: u32, ms: &[u32], ds: &mut [u32])
    requires { Divisible P w ms.now ds.old × (length ms.now ≤ 256) }
    ensures { ds.new ≡ joined (quotient_at P w ms.now ds.old) 0 (length ms.now) }
{
    let end = 4 * ms.len();
    // Fixed memory, for the 256 denominators at most.
    let mut held = [0u32; 1024];
    let product = products::<P>(w, ms, ds, &mut held[0..end]);
    let inverse = word::inv(P, product);
    quotients::<P>(w, ms, &held[0..end], inverse, ds);
}

// Denominator i becomes multiplicity i ÷ denominator i, and 0 where it is 0.
pub fn divide_all(p: u32, w: u32, ms: &[u32], ds: &mut [u32])
    requires { Divisible p w ms.now ds.old × (length ms.now ≤ 256) }
    ensures { ds.new ≡ joined (quotient_at p w ms.now ds.old) 0 (length ms.now) }
{
    if p == BABYBEAR {
        divide_by::<BABYBEAR>(w, ms, ds);
    } else {
        divide_by::<KOALABEAR>(w, ms, ds);
    }
}
