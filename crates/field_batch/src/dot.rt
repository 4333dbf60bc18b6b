// A word times an element, added up for several words and elements: four sums of products in 64 bits, four products to a sum before it
// must be reduced.
ghost use Rattle.std.specs.Prelude.{◌≡◌, ℕ, ◌+◌, ◌<◌};
ghost use Rattle.field.specs.inner.Requires.{KnownPrime};
ghost use Rattle.field.specs.Element.{Word4, zero4, add4, scale4};
ghost use Rattle.field.specs.Ext.{ext_words};
ghost use Rattle.field_batch.specs.inner.Dot.{residues, Room};

use field::extension::Ext;
use field::word;

#[derive(Clone, Copy)]
pub struct Sum {
    pub s0: u64,
    pub s1: u64,
    pub s2: u64,
    pub s3: u64,
}

// The sum of nothing. A function and no constant: its contract says what that is modulo p.
pub fn none(p: u32) -> Sum
    requires { KnownPrime p }
    ensures { Room 4 result × (residues p result ≡ zero4) }
{
    Sum {
        s0: 0,
        s1: 0,
        s2: 0,
        s3: 0,
    }
}

// s + z·a, with room for one product less.
pub fn more(p: u32, s: Sum, z: u32, a: Ext) -> Sum
    requires { KnownPrime p × Room 1 s × (z < p) × Word4 p (ext_words a) }
    ensures { ((n : ℕ) → Room (1 + n) s → Room n result) × (residues p result ≡ add4 p (residues p s) (scale4 p z (ext_words a))) }
{
    Sum {
        s0: s.s0 + word::product(p, z, a.c0),
        s1: s.s1 + word::product(p, z, a.c1),
        s2: s.s2 + word::product(p, z, a.c2),
        s3: s.s3 + word::product(p, z, a.c3),
    }
}

// The same modulo p, with room for four products again.
pub fn reduced(p: u32, s: Sum) -> Sum
    requires { KnownPrime p }
    ensures { Room 4 result × (residues p result ≡ residues p s) }
{
    Sum {
        s0: u64::from(word::reduce(p, s.s0)),
        s1: u64::from(word::reduce(p, s.s1)),
        s2: u64::from(word::reduce(p, s.s2)),
        s3: u64::from(word::reduce(p, s.s3)),
    }
}

pub fn total(p: u32, s: Sum) -> Ext
    requires { KnownPrime p }
    ensures { Word4 p (ext_words result) × (ext_words result ≡ residues p s) }
{
    Ext {
        c0: word::reduce(p, s.s0),
        c1: word::reduce(p, s.s1),
        c2: word::reduce(p, s.s2),
        c3: word::reduce(p, s.s3),
    }
}
