// Words of four bytes, the least byte first.
ghost use Rattle.std.specs.Prelude.{◌≡◌, ◌++◌, ◌+◌, ◌*◌, ◌/◌, ◌≤◌, length, drop};
ghost use Rattle.wire.specs.Wire.{word_at, words_of, word_bytes, bytes_of};

// Word i of some bytes.
fn word_at(bytes: &[u8], i: usize) -> u32
    requires { 4 * i + 4 ≤ length bytes.now }
    ensures { result ≡ word_at bytes.now i }
{
    let at = 4 * i;
    u32::from_le_bytes([bytes[at], bytes[at + 1], bytes[at + 2], bytes[at + 3]])
}

// The words of some bytes, into the front of a lent list. Bytes past the last whole word are left out.
pub fn decode(bytes: &[u8], out: &mut [u32])
    requires { length bytes.now / 4 ≤ length out.old }
    ensures { out.new ≡ words_of bytes.now ++ drop (length bytes.now / 4) out.old }
{
    let n = bytes.len() / 4;
    for i in 0..n {
        out[i] = word_at(bytes, i);
    }
}

// The four bytes of a word.
fn put(x: u32, out: &mut [u8])
    requires { length out.old ≡ 4 }
    ensures { out.new ≡ word_bytes x }
{
    out.copy_from_slice(&x.to_le_bytes());
}

// The bytes of some words, into the front of a lent list.
pub fn encode(words: &[u32], out: &mut [u8])
    requires { 4 * length words.now ≤ length out.old }
    ensures { out.new ≡ bytes_of words.now ++ drop (4 * length words.now) out.old }
{
    let n = words.len();
    for i in 0..n {
        let at = 4 * i;
        let end = at + 4;
        put(words[i], &mut out[at..end]);
    }
}
