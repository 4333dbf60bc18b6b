// Elements of four words, c0 + c1·X + c2·X² + c3·X³ with X⁴ = w. Functions and no methods: each takes p first, as those on words do.
ghost use Rattle.std.specs.Prelude.{◌≡◌, ◌<◌, ◌≤◌, ◌+◌, ◌*◌, length};
ghost use Rattle.field.specs.Modulus.{Certificate};
ghost use Rattle.field.specs.inner.Requires.{KnownPrime};
ghost use Rattle.field.specs.Element.{at, Word4, add4, sub4, neg4, mul4, scale4, power4, norm2, norm, cofactor, lift, inverse4, is_zero, element};
ghost use Rattle.field.specs.Ext.{ext_words};

use crate::word;

#[derive(Clone, Copy, PartialEq, Eq)]
pub struct Ext {
    pub c0: u32,
    pub c1: u32,
    pub c2: u32,
    pub c3: u32,
}

impl Ext {
    pub const ZERO: Ext = Ext {
        c0: 0,
        c1: 0,
        c2: 0,
        c3: 0,
    };

    pub const ONE: Ext = Ext {
        c0: 1,
        c1: 0,
        c2: 0,
        c3: 0,
    };
}

#[tactic(auto, unfolding(crate::specs::Element::add4))]
pub fn add(p: u32, a: Ext, b: Ext) -> Ext
    requires { KnownPrime p × Word4 p (ext_words a) × Word4 p (ext_words b) }
    ensures { Word4 p (ext_words result) × (ext_words result ≡ add4 p (ext_words a) (ext_words b)) }
{
    Ext {
        c0: word::add(p, a.c0, b.c0),
        c1: word::add(p, a.c1, b.c1),
        c2: word::add(p, a.c2, b.c2),
        c3: word::add(p, a.c3, b.c3),
    }
}

#[tactic(auto, unfolding(crate::specs::Element::sub4))]
pub fn sub(p: u32, a: Ext, b: Ext) -> Ext
    requires { KnownPrime p × Word4 p (ext_words a) × Word4 p (ext_words b) }
    ensures { Word4 p (ext_words result) × (ext_words result ≡ sub4 p (ext_words a) (ext_words b)) }
{
    Ext {
        c0: word::sub(p, a.c0, b.c0),
        c1: word::sub(p, a.c1, b.c1),
        c2: word::sub(p, a.c2, b.c2),
        c3: word::sub(p, a.c3, b.c3),
    }
}

#[tactic(auto, unfolding(crate::specs::Element::neg4))]
pub fn neg(p: u32, a: Ext) -> Ext
    requires { KnownPrime p × Word4 p (ext_words a) }
    ensures { Word4 p (ext_words result) × (ext_words result ≡ neg4 p (ext_words a)) }
{
    Ext {
        c0: word::neg(p, a.c0),
        c1: word::neg(p, a.c1),
        c2: word::neg(p, a.c2),
        c3: word::neg(p, a.c3),
    }
}

// A word times an element.
#[tactic(auto, unfolding(crate::specs::Element::scale4))]
pub fn scale(p: u32, z: u32, a: Ext) -> Ext
    requires { KnownPrime p × (z < p) × Word4 p (ext_words a) }
    ensures { Word4 p (ext_words result) × (ext_words result ≡ scale4 p z (ext_words a)) }
{
    Ext {
        c0: word::mul(p, z, a.c0),
        c1: word::mul(p, z, a.c1),
        c2: word::mul(p, z, a.c2),
        c3: word::mul(p, z, a.c3),
    }
}

// With w·a first, each coefficient is one sum of four products and one reduction.
pub fn mul(p: u32, w: u32, a: Ext, b: Ext) -> Ext
    requires { KnownPrime p × (w < p) × Word4 p (ext_words a) × Word4 p (ext_words b) }
    ensures { Word4 p (ext_words result) × (ext_words result ≡ mul4 p w (ext_words a) (ext_words b)) }
{
    let w1 = word::mul(p, w, a.c1);
    let w2 = word::mul(p, w, a.c2);
    let w3 = word::mul(p, w, a.c3);
    Ext {
        c0: word::dot4(p, a.c0, b.c0, w1, b.c3, w2, b.c2, w3, b.c1),
        c1: word::dot4(p, a.c0, b.c1, a.c1, b.c0, w2, b.c3, w3, b.c2),
        c2: word::dot4(p, a.c0, b.c2, a.c1, b.c1, a.c2, b.c0, w3, b.c3),
        c3: word::dot4(p, a.c0, b.c3, a.c1, b.c2, a.c2, b.c1, a.c3, b.c0),
    }
}

// b to the power n, by squaring: r·x^k stays what it is, while k is halved.
pub fn power(p: u32, w: u32, b: Ext, n: u32) -> Ext
    requires { KnownPrime p × (w < p) × Word4 p (ext_words b) }
    ensures { Word4 p (ext_words result) × (ext_words result ≡ power4 p w (ext_words b) n) }
{
    let mut r = Ext::ONE;
    let mut x = b;
    let mut k = n;
    while 0 < k {
        if k % 2 == 1 {
            r = mul(p, w, r, x);
        }
        x = mul(p, w, x, x);
        k /= 2;
    }
    r
}

// The first and the third word of a(X)·a(-X) = n0 + n1·X². The minus signs are in the factors, so that each is one sum of four products.
pub fn norm2(p: u32, w: u32, a: Ext) -> (u32, u32)
    requires { KnownPrime p × (w < p) × Certificate p w × Word4 p (ext_words a) }
    ensures { (result.0 < p) × (result.1 < p) × (result.0 ≡ at (norm2 p w (ext_words a)) 0) × (result.1 ≡ at (norm2 p w (ext_words a)) 2) }
{
    let v1 = word::mul(p, w, a.c1);
    let v2 = word::mul(p, w, a.c2);
    let v3 = word::mul(p, w, a.c3);
    let minus1 = word::neg(p, a.c1);
    let minus3 = word::neg(p, a.c3);
    (
        word::dot4(p, a.c0, a.c0, v2, a.c2, v1, minus3, v1, minus3),
        word::dot4(p, a.c0, a.c2, a.c0, a.c2, a.c1, minus1, v3, minus3),
    )
}

// The norm, from these two words.
pub fn norm_of(p: u32, w: u32, a: Ext, x: u32, y: u32) -> u32
    requires { KnownPrime p × (w < p) × Certificate p w × (x < p) × (y < p) × (x ≡ at (norm2 p w (ext_words a)) 0) × (y ≡ at (norm2 p w (ext_words a)) 2) }
    ensures { (result < p) × (result ≡ norm p w (ext_words a)) }
{
    word::dot2(p, x, x, word::mul(p, w, y), word::neg(p, y))
}

// The cofactor times i, from these two words.
pub fn cofactor_times(p: u32, w: u32, a: Ext, x: u32, y: u32, i: u32) -> Ext
    requires { KnownPrime p × (w < p) × Certificate p w × Word4 p (ext_words a) × (x < p) × (y < p) × (i < p) × (x ≡ at (norm2 p w (ext_words a)) 0) × (y ≡ at (norm2 p w (ext_words a)) 2) }
    ensures { Word4 p (ext_words result) × (ext_words result ≡ mul4 p w (cofactor p w (ext_words a)) (lift i)) }
{
    let e0 = word::mul(p, x, i);
    let e1 = word::mul(p, word::neg(p, y), i);
    let f0 = word::neg(p, e0);
    let f1 = word::neg(p, e1);
    let v2 = word::mul(p, w, a.c2);
    let v3 = word::mul(p, w, a.c3);
    Ext {
        c0: word::dot2(p, a.c0, e0, v2, e1),
        c1: word::dot2(p, a.c1, f0, v3, f1),
        c2: word::dot2(p, a.c0, e1, a.c2, e0),
        c3: word::dot2(p, a.c1, f1, a.c3, f0),
    }
}

// 1 ÷ a, and 0 where a is 0.
pub fn inv(p: u32, w: u32, a: Ext) -> Ext
    requires { KnownPrime p × (w < p) × Certificate p w × Word4 p (ext_words a) }
    ensures { Word4 p (ext_words result) × (ext_words result ≡ inverse4 p w (ext_words a)) }
{
    let (x, y) = norm2(p, w, a);
    let i = word::inv(p, norm_of(p, w, a, x, y));
    cofactor_times(p, w, a, x, y, i)
}

pub fn is_zero(a: Ext) -> bool
    ensures { result ≡ is_zero (ext_words a) }
{
    a == Ext::ZERO
}

// Element i of a slice of words.
#[tactic(auto, unfolding(crate::specs::Element::element))]
pub fn load(s: &[u32], i: usize) -> Ext
    requires { 4 * i + 4 ≤ length s.now }
    ensures { ext_words result ≡ element s.now i }
{
    let j = 4 * i;
    Ext {
        c0: s[j],
        c1: s[j + 1],
        c2: s[j + 2],
        c3: s[j + 3],
    }
}

// An element into the four words that are lent for it, word by word, as `load` reads it.
pub fn store(out: &mut [u32], a: Ext)
    requires { length out.old ≡ 4 }
    ensures { out.new ≡ ext_words a }
{
    out[0] = a.c0;
    out[1] = a.c1;
    out[2] = a.c2;
    out[3] = a.c3;
}
