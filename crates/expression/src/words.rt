// Words and lists of words. A test goes through its whole list: that is faster than leaving early.
ghost use Rattle.std.specs.Prelude.{◌≡◌, ◌+◌, ◌*◌, ◌<◌, ◌≤◌, min, length, replicate};
ghost use Rattle.lists.specs.Count.{total};
ghost use Rattle.expression.specs.Words.{word, low_half, high_half, all_below, all_within};

// A word as a number of 64 bits, and as an index.
pub fn to_u64(x: u32) -> u64
    ensures { (result ≡ x) × (result ≤ 4294967295) }
{
    x as u64
}

pub fn to_usize(x: u32) -> usize
    ensures { (result ≡ x) × (result ≤ 4294967295) }
{
    x as usize
}

// A number of 64 bits as two words.
pub fn low_half(n: u64) -> u32
    ensures { result ≡ low_half n }
{
    (n % (1 << 32)) as u32
}

pub fn high_half(n: u64) -> u32
    ensures { result ≡ high_half n }
{
    (n >> 32) as u32
}

// Each word is below n.
pub fn all_below(n: u32, s: &[u32]) -> bool
    ensures { result ≡ all_below n s.now }
{
    let mut ok = true;
    for x in s {
        ok &= (*x < n);
    }
    ok
}

// Each word is at most n.
pub fn all_within(n: u32, s: &[u32]) -> bool
    ensures { result ≡ all_within n s.now }
{
    let mut ok = true;
    for x in s {
        ok &= (*x <= n);
    }
    ok
}

// Word i; a word past the end reads as 0.
pub fn word_at(s: &[u32], i: usize) -> u32
    ensures { result ≡ word s.now i }
{
    s.get(i).copied().unwrap_or(0)
}

// The sum of word f of the first n records of so many words each: where what the n-th record counts begins.
pub fn total_of(s: &[u32], words: usize, f: usize, n: usize) -> usize
    requires { (words ≤ 16) × (f < words) × (n ≤ 4294967295) }
    ensures { (result ≡ total (λ i. word s.now (words * i + f)) n) × (result ≤ n * 4294967295) }
{
    let mut sum: usize = 0;
    for i in 0..n {
        sum += word_at(s, words * i + f) as usize;
    }
    sum
}

// A sum as a word, held at the largest.
pub fn saturate_u32(n: u64) -> u32
    ensures { result ≡ min n 4294967295 }
{
    n.min(u64::from(u32::MAX)) as u32
}

// Every word zero.
pub fn clear(s: &mut [u32])
    ensures { s.new ≡ replicate (length s.old) 0 }
{
    s.fill(0);
}
