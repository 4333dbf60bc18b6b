// The exported functions of one table, packing and building aside. A call with its lists is a function of its own: in its caller the bound on
// the room stands near the parts that are lent, and no proof has to name it.
use crate::answer::{Answer, compared};
use crate::spans;
use crate::spans::{
    at, choice, holds, list, list_of_bytes, room, same_five, same_words, size, words_part,
};
use crate::text::word;
use delmatik::eval_all::delmatik_constraints;
use delmatik::generate_permutation::{delmatik_generate, delmatik_row};
use delmatik::types::delmatik_degree;
use expression::words::{to_u64, to_usize};

// The table's lists, lent to generation.
fn call_generate(
    words: &[u32],
    bytes: &[u8],
    spans: &[usize; 74],
    trace: &mut [u32],
    terminal: &mut [u32; 5],
    details: &mut [u64; 3],
) -> u32 {
    let sizes = list(words, spans, spans::SIZES);
    delmatik_generate(
        choice(words, spans, spans::FIELD),
        choice(words, spans, spans::PROFILE),
        choice(words, spans, spans::RULE),
        size(sizes, 0),
        size(sizes, 1),
        size(sizes, 2),
        size(sizes, 3),
        list(words, spans, spans::MAIN),
        list(words, spans, spans::PREPROCESSED),
        list(words, spans, spans::PUBLIC),
        list(words, spans, spans::NODES),
        list(words, spans, spans::LOOKUPS),
        list_of_bytes(bytes, spans, spans::NAMES),
        list(words, spans, spans::TUPLES),
        list(words, spans, spans::MULTIPLICITIES),
        list(words, spans, spans::FLAGS),
        list(words, spans, spans::ELEMENTS),
        list(words, spans, spans::CHALLENGES),
        trace,
        terminal,
        details,
    )
}

pub fn generate(line: &[u64; 8], words: &[u32], bytes: &[u8], spans: &[usize; 74]) -> Answer {
    let mut buffer = [7u32; 32768];
    let mut terminal = [7u32; 5];
    let mut details = [0u64; 3];
    let expected = list(words, spans, spans::TRACE);
    let n = room(expected);
    let number = call_generate(
        words,
        bytes,
        spans,
        &mut buffer[0..n],
        &mut terminal,
        &mut details,
    );
    let same = holds(&buffer, expected) & same_five(&terminal, list(words, spans, spans::TERMINAL));
    compared(number, &details, line, same)
}

pub fn degree(line: &[u64; 8], words: &[u32], bytes: &[u8], spans: &[usize; 74]) -> Answer {
    let mut value = [7u64; 1];
    let mut details = [0u64; 3];
    let sizes = list(words, spans, spans::SIZES);
    let public_values = list(words, spans, spans::PUBLIC);
    let number = delmatik_degree(
        choice(words, spans, spans::FIELD),
        choice(words, spans, spans::PROFILE),
        size(sizes, 0),
        size(sizes, 2),
        public_values.len(),
        list(words, spans, spans::NODES),
        list(words, spans, spans::LOOKUPS),
        list_of_bytes(bytes, spans, spans::NAMES),
        list(words, spans, spans::TUPLES),
        list(words, spans, spans::MULTIPLICITIES),
        list(words, spans, spans::FLAGS),
        list(words, spans, spans::ELEMENTS),
        line[4] as usize,
        word(line[5]),
        &mut value,
        &mut details,
    );
    compared(number, &details, line, value[0] == line[6])
}

pub fn constraints(line: &[u64; 8], words: &[u32], bytes: &[u8], spans: &[usize; 74]) -> Answer {
    let mut details = [0u64; 3];
    let sizes = list(words, spans, spans::SIZES);
    let claimed = list(words, spans, spans::CLAIMED);
    let number = delmatik_constraints(
        choice(words, spans, spans::FIELD),
        choice(words, spans, spans::PROFILE),
        choice(words, spans, spans::RULE),
        size(sizes, 0),
        size(sizes, 1),
        size(sizes, 2),
        size(sizes, 3),
        list(words, spans, spans::MAIN),
        list(words, spans, spans::PREPROCESSED),
        list(words, spans, spans::PUBLIC),
        list(words, spans, spans::NODES),
        list(words, spans, spans::LOOKUPS),
        list_of_bytes(bytes, spans, spans::NAMES),
        list(words, spans, spans::TUPLES),
        list(words, spans, spans::MULTIPLICITIES),
        list(words, spans, spans::FLAGS),
        list(words, spans, spans::ELEMENTS),
        list(words, spans, spans::CHALLENGES),
        line[4] as usize,
        list(words, spans, spans::ROWS),
        word(line[5]),
        at(claimed, 0),
        at(claimed, 1),
        at(claimed, 2),
        at(claimed, 3),
        &mut details,
    );
    compared(number, &details, line, true)
}

// A part of a trace.
fn part_of(trace: &[u32], start: u32, n: u32) -> &[u32] {
    let a = to_usize(start);
    let b = a + to_usize(n);
    words_part(trace, a, b)
}

// The part that is answered is the case's, and holds the words that it says.
pub fn row(line: &[u64; 8], words: &[u32], spans: &[usize; 74]) -> Answer {
    let mut part = [7u64; 2];
    let details = [0u64; 3];
    let trace = list(words, spans, spans::ROWS);
    let expected = list(words, spans, spans::PART);
    delmatik_row(
        trace,
        line[4] as usize,
        line[5] as usize,
        line[6],
        &mut part,
    );
    let start = at(expected, 0);
    let n = at(expected, 1);
    let same = (part[0] == to_u64(start)) & (part[1] == to_u64(n));
    let held = same_words(part_of(trace, start, n), list(words, spans, spans::WRITTEN));
    compared(0, &details, line, same & held)
}
