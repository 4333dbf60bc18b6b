// Lines, words and numbers of a text of cases. Each function is total: what is no number counts as none, a number over 2^64 - 1 is held there.
ghost use Rattle.std.specs.Prelude.{◌<◌, ◌≤◌, length};

use lookup::buses::same_bytes;

// Where the run of bytes other than `stop` that starts at `from` ends.
pub fn run_end(text: &[u8], from: usize, stop: u8) -> usize
    requires { from ≤ length text.now }
    ensures { (from ≤ result) × (result ≤ length text.now) }
{
    let mut at = from;
    while at < text.len() {
        if text[at] == stop {
            return at;
        }
        at += 1;
    }
    at
}

// The place after the byte at `end`, or the text's end.
pub fn after(text: &[u8], from: usize, end: usize) -> usize
    requires { (from < length text.now) × (from ≤ end) × (end ≤ length text.now) }
    ensures { (from < result) × (result ≤ length text.now) }
{
    if end < text.len() {
        return end + 1;
    }
    end
}

// The place of a key in a list of keys that are separated by blanks; one for each key where it is none of them.
pub fn find(keys: &[u8], key: &[u8]) -> usize {
    let mut k: usize = 0;
    let mut at = 0;
    while at < keys.len() {
        let end = run_end(keys, at, b' ');
        if same_bytes(&keys[at..end], key) {
            return k;
        }
        k += 1;
        at = after(keys, at, end);
    }
    k
}

fn is_digit(byte: u8) -> bool {
    (b'0' <= byte) & (byte <= b'9')
}

// Where the digits that start at `from` end.
pub fn digits_end(line: &[u8], from: usize) -> usize
    requires { from ≤ length line.now }
    ensures { (from ≤ result) × (result ≤ length line.now) }
{
    let mut at = from;
    while at < line.len() {
        if !is_digit(line[at]) {
            return at;
        }
        at += 1;
    }
    at
}

fn digit(byte: u8) -> u64
    ensures { result ≤ 9 }
{
    if byte < 48 {
        return 0;
    }
    if 57 < byte {
        return 0;
    }
    (byte - 48) as u64
}

// 10 n + d, held.
fn appended(n: u64, d: u64) -> u64
    requires { d ≤ 9 }
{
    if 1844674407370955160 < n {
        return 18446744073709551615;
    }
    let tens = n * 10;
    if 18446744073709551615 - tens < d {
        return 18446744073709551615;
    }
    tens + d
}

// The number that digits write.
pub fn number(digits: &[u8]) -> u64 {
    let mut n: u64 = 0;
    for i in 0..digits.len() {
        n = appended(n, digit(digits[i]));
    }
    n
}

// The low 32 bits.
pub fn word(n: u64) -> u32 {
    (n % 4294967296) as u32
}

// The low 8 bits.
pub fn byte(n: u64) -> u8 {
    (n % 256) as u8
}
