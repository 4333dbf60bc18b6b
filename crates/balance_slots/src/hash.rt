// The hash of words, by a seed.
ghost use Rattle.std.specs.Prelude.{◌≡◌, ◌+◌, ◌≤◌, ◌<◌, length};
ghost use Rattle.expression.specs.Words.{word};
ghost use Rattle.balance_slots.specs.inner.Hash.{chains, seed_of, hash};

use expression::words::to_u64;

// The prime 2^31 - 1.
const HASH_PRIME: u64 = 2147483647;

// Chains of slots; a chain's newest slot is one of so many heads.
const CHAINS: u64 = 32768;

// Where the polynomial of a tuple's words is evaluated, and what spreads the values over the chains.
#[derive(Clone, Copy)]
pub struct Seed {
    pub point: u32,
    pub factor: u32,
}

// The seed of a number: any number has one.
pub fn seed_of(n: u64) -> Seed
    ensures { result ≡ seed_of n }
{
    Seed {
        point: (n % HASH_PRIME) as u32,
        factor: (n / HASH_PRIME % (HASH_PRIME - 1) + 1) as u32,
    }
}

// The hash of n words from word `at` on.
pub fn hash(seed: Seed, s: &[u32], at: usize, n: usize) -> usize
    requires { at + n ≤ length s.now }
    ensures { (result ≡ hash seed (λ j. word s.now (at + j)) n) × (result < chains) }
{
    // `to_u64` says of its result that it has 32 bits, so that the products fit.
    let point = to_u64(seed.point);
    let factor = to_u64(seed.factor);
    let mut h: u64 = 1;
    for j in 0..n {
        // 2^31 is 1 modulo the prime: what is above 31 bits is added to what is below, twice, in place of a division.
        let x = h * point + to_u64(s[at + j]);
        let y = x % 2147483648 + x / 2147483648;
        h = y % 2147483648 + y / 2147483648;
    }
    (h * factor % HASH_PRIME % CHAINS) as usize
}
