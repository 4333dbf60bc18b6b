// The lists of a case: the words of all of them one after the other in one array, the bytes in another, and a span for each list.
// A span is a start and an end. An accessor takes any span: where it does not lie in the array, the part is empty.
ghost use Rattle.std.specs.Prelude.{◌≤◌};

use crate::text;
use expression::words::to_usize;
use lookup::buses::same_bytes;

pub const SIZES: usize = 0;

pub const MAIN: usize = 1;

pub const PREPROCESSED: usize = 2;

pub const PUBLIC: usize = 3;

pub const NODES: usize = 4;

pub const LOOKUPS: usize = 5;

pub const TUPLES: usize = 6;

pub const MULTIPLICITIES: usize = 7;

pub const FLAGS: usize = 8;

pub const ELEMENTS: usize = 9;

pub const CHALLENGES: usize = 10;

pub const COUNTS: usize = 11;

pub const HEIGHTS: usize = 12;

pub const GIVEN: usize = 13;

pub const ROWS: usize = 14;

pub const CLAIMED: usize = 15;

pub const ELEMENT: usize = 16;

pub const TRACE: usize = 17;

pub const TERMINAL: usize = 18;

pub const WRITTEN: usize = 19;

pub const WORKSPACE: usize = 20;

pub const PACKED_LOOKUPS: usize = 21;

pub const PACKED_TUPLES: usize = 22;

pub const PACKED_MULTIPLICITIES: usize = 23;

pub const PACKED_FLAGS: usize = 24;

pub const PACKED_ELEMENTS: usize = 25;

pub const RESULT: usize = 26;

pub const LISTS: usize = 27;

pub const INTERACTIONS: usize = 28;

pub const WEIGHTS: usize = 29;

pub const USED: usize = 30;

pub const COUNT: usize = 31;

pub const NODES_AFTER: usize = 32;

pub const PART: usize = 33;

pub const CHOICES: usize = 34;

pub const NAMES: usize = 35;

pub const PACKED_NAMES: usize = 36;

// The words of the choices.
pub const FIELD: usize = 0;

pub const PROFILE: usize = 1;

pub const RULE: usize = 2;

// The number of a list's key, in the order above; 37 where the key is no list's.
pub fn key(name: &[u8]) -> usize {
    text::find(
        b"sizes main preprocessed public nodes lookups tuples multiplicities flags elements challenges counts heights given rows claimed element trace terminal written workspace packed-lookups packed-tuples packed-multiplicities packed-flags packed-elements result lists interactions weights used count nodes-after part choices names packed-names",
        name,
    )
}

fn start(spans: &[usize; 74], key: usize) -> usize {
    if key < 37 {
        return spans[2 * key];
    }
    0
}

fn end(spans: &[usize; 74], key: usize) -> usize {
    if key < 37 {
        return spans[2 * key + 1];
    }
    0
}

pub fn set_span(spans: &mut [usize; 74], key: usize, a: usize, b: usize) {
    if key < 37 {
        spans[2 * key] = a;
        spans[2 * key + 1] = b;
    }
}

pub fn words_part(words: &[u32], a: usize, b: usize) -> &[u32] {
    if b < a {
        return &words[0..0];
    }
    if words.len() < b {
        return &words[0..0];
    }
    &words[a..b]
}

fn bytes_part(bytes: &[u8], a: usize, b: usize) -> &[u8] {
    if b < a {
        return &bytes[0..0];
    }
    if bytes.len() < b {
        return &bytes[0..0];
    }
    &bytes[a..b]
}

// A list of words, a list of bytes.
pub fn list<'a>(words: &'a [u32], spans: &[usize; 74], key: usize) -> &'a [u32] {
    words_part(words, start(spans, key), end(spans, key))
}

pub fn list_of_bytes<'a>(bytes: &'a [u8], spans: &[usize; 74], key: usize) -> &'a [u8] {
    bytes_part(bytes, start(spans, key), end(spans, key))
}

// The first four words, and those after them.
pub fn front(words: &[u32]) -> &[u32] {
    if words.len() < 4 {
        return words;
    }
    &words[0..4]
}

pub fn back(words: &[u32]) -> &[u32] {
    if words.len() < 4 {
        return &words[0..0];
    }
    &words[4..]
}

// The word at a place of a list; 0 past its end.
pub fn at(words: &[u32], i: usize) -> u32 {
    if i < words.len() {
        return words[i];
    }
    0
}

// The same as a size.
pub fn size(words: &[u32], i: usize) -> usize {
    to_usize(at(words, i))
}

// A choice of the case; 1 where the case does not say it.
pub fn choice(words: &[u32], spans: &[usize; 74], i: usize) -> u32 {
    let choices = list(words, spans, CHOICES);
    if i < choices.len() {
        return choices[i];
    }
    1
}

// How many words an output gets: as many as the list has that it is compared with.
pub fn room(words: &[u32]) -> usize
    ensures { result ≤ 32768 }
{
    if words.len() < 32768 {
        return words.len();
    }
    32768
}

pub fn room_of_bytes(bytes: &[u8]) -> usize
    ensures { result ≤ 4096 }
{
    if bytes.len() < 4096 {
        return bytes.len();
    }
    4096
}

// Whether the front of a buffer, where an output was written, is what is expected.
pub fn holds(buffer: &[u32; 32768], expected: &[u32]) -> bool {
    same_words(words_part(buffer, 0, expected.len()), expected)
}

pub fn holds_bytes(buffer: &[u8; 4096], expected: &[u8]) -> bool {
    same_bytes(bytes_part(buffer, 0, expected.len()), expected)
}

// The same for the words of a terminal.
pub fn same_five(words: &[u32; 5], expected: &[u32]) -> bool {
    same_words(words, expected)
}

// The same for the words of a count.
pub fn same_two(words: &[u32; 2], expected: &[u32]) -> bool {
    same_words(words, expected)
}

// Whether two lists of words are equal.
pub fn same_words(x: &[u32], y: &[u32]) -> bool {
    if x.len() != y.len() {
        return false;
    }
    for i in 0..x.len() {
        if x[i] != y[i] {
            return false;
        }
    }
    true
}
