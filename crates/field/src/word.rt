// Words below p.
ghost use Rattle.std.specs.Prelude.{◌≡◌, ◌<◌, ◌≤◌, ◌*◌, ◌%◌};
ghost use Rattle.algebra.specs.Prime.{Prime};
ghost use Rattle.field.specs.inner.Requires.{KnownPrime};
ghost use Rattle.field.specs.Word.{add_m, sub_m, neg_m, mul_m, dot, inverse1};

use crate::modulus::{BABYBEAR, BABYBEAR_U64, KOALABEAR_U64};

const TWO_TO_63: u64 = 1 << 63;

pub fn add(p: u32, a: u32, b: u32) -> u32
    requires { KnownPrime p × (a < p) × (b < p) }
    ensures { (result < p) × (result ≡ add_m p a b) }
{
    let s = a + b;
    if s < p { s } else { s - p }
}

pub fn sub(p: u32, a: u32, b: u32) -> u32
    requires { KnownPrime p × (a < p) × (b < p) }
    ensures { (result < p) × (result ≡ sub_m p a b) }
{
    if a < b { a + (p - b) } else { a - b }
}

pub fn neg(p: u32, a: u32) -> u32
    requires { KnownPrime p × (a < p) }
    ensures { (result < p) × (result ≡ neg_m p a) }
{
    if a == 0 { 0 } else { p - a }
}

// A number modulo p. Each of the two primes has an arm of its own, in which the division is by a constant.
pub fn reduce(p: u32, n: u64) -> u32
    requires { KnownPrime p }
    ensures { (result < p) × (result ≡ n % p) }
{
    if p == BABYBEAR {
        return (n % BABYBEAR_U64) as u32;
    }
    (n % KOALABEAR_U64) as u32
}

// The product as a number, so small that four of them add up in 64 bits.
pub fn product(p: u32, a: u32, b: u32) -> u64
    requires { KnownPrime p × (a < p) × (b < p) }
    ensures { (result ≡ a * b) × (result ≤ 2147483647 * 2147483647) }
{
    u64::from(a) * u64::from(b)
}

pub fn mul(p: u32, a: u32, b: u32) -> u32
    requires { KnownPrime p × (a < p) × (b < p) }
    ensures { (result < p) × (result ≡ mul_m p a b) }
{
    reduce(p, product(p, a, b))
}

// a·b + c·d. The sum is below 2^63, and the remainder tells the compiler so: its division by a constant is then shorter.
pub fn dot2(p: u32, a: u32, b: u32, c: u32, d: u32) -> u32
    requires { KnownPrime p × (a < p) × (b < p) × (c < p) × (d < p) }
    ensures { (result < p) × (result ≡ add_m p (mul_m p a b) (mul_m p c d)) }
{
    reduce(p, (product(p, a, b) + product(p, c, d)) % TWO_TO_63)
}

// a0·b0 + a1·b1 + a2·b2 + a3·b3
pub fn dot4(p: u32, a0: u32, b0: u32, a1: u32, b1: u32, a2: u32, b2: u32, a3: u32, b3: u32) -> u32
    requires { KnownPrime p × (a0 < p) × (b0 < p) × (a1 < p) × (b1 < p) × (a2 < p) × (b2 < p) × (a3 < p) × (b3 < p) }
    ensures { (result < p) × (result ≡ dot p a0 b0 a1 b1 a2 b2 a3 b3) }
{
    reduce(
        p,
        product(p, a0, b0) + product(p, a1, b1) + product(p, a2, b2) + product(p, a3, b3),
    )
}

// While x = a·t modulo p, from x to p mod x: for p = q·x + r, r = -q·x. x ends at 1, since p is prime.
pub fn inv_nonzero(p: u32, a: u32) -> u32
    requires { KnownPrime p × Prime p × (0 < a) × (a < p) }
    ensures { (result < p) × (mul_m p a result ≡ 1) }
{
    let mut x = a;
    let mut t: u32 = 1;
    while 1 < x {
        t = mul(p, t, p - p / x);
        x = p % x;
    }
    t
}

// 1 ÷ a, and 0 where a is 0.
pub fn inv(p: u32, a: u32) -> u32
    requires { KnownPrime p × Prime p × (a < p) }
    ensures { (result < p) × (result ≡ inverse1 p a) }
{
    if a == 0 {
        return 0;
    }
    inv_nonzero(p, a)
}
