// Tuples in the order of their words' decimal texts.
ghost use Rattle.std.specs.Prelude.{◌≡◌, ◌++◌, ◌≤◌, ◌<◌, length, drop, ltb};
ghost use Rattle.balance_slots.specs.Decimal.{text, in_order, text_less, tuple_less};

// The decimal digits of x at the front of out; answers how many.
pub fn push_digits(x: u32, out: &mut [u32]) -> usize
    requires { (x ≤ 4294967295) × (length (text x) ≤ length out.old) }
    ensures { (result ≡ length (text x)) × (out.new ≡ text x ++ drop result out.old) }
{
    if x < 10 {
        out[0] = x;
        return 1;
    }
    let n = push_digits(x / 10, out);
    out[n] = x % 10;
    n + 1
}

// Whether a word is before another by decimal text.
pub fn word_less(a: u32, b: u32) -> bool
    ensures { result ≡ text_less a b }
{
    let mut x = [0u32; 10];
    let mut y = [0u32; 10];
    // Both words have at most ten digits, since they have 32 bits.
    let n = push_digits(a, &mut x);
    let m = push_digits(b, &mut y);
    x[0..n] < y[0..m]
}

// Whether a tuple is before another. No `<` of slices: their words are ordered by text.
pub fn tuple_less(x: &[u32], y: &[u32]) -> bool
    ensures { result ≡ tuple_less x.now y.now }
{
    for i in 0..x.len() {
        if y.len() <= i {
            return false;
        }
        if x[i] != y[i] {
            return word_less(x[i], y[i]);
        }
    }
    x.len() < y.len()
}
