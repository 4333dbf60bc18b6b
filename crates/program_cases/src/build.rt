// Building.
use crate::answer::{Answer, compared};
use crate::spans;
use crate::spans::{choice, holds, list, list_of_bytes, room, size};
use delmatik::from_interactions::delmatik_build;

// The interactions and the lists that their lookups will have, lent to building with its output.
fn call_build(
    line: &[u64; 8],
    words: &[u32],
    bytes: &[u8],
    spans: &[usize; 74],
    lookups: &mut [u32],
    used: &mut [u64; 1],
    details: &mut [u64; 3],
) -> u32 {
    let sizes = list(words, spans, spans::SIZES);
    let public_values = list(words, spans, spans::PUBLIC);
    delmatik_build(
        choice(words, spans, spans::FIELD),
        choice(words, spans, spans::PROFILE),
        size(sizes, 0),
        size(sizes, 2),
        public_values.len(),
        list(words, spans, spans::NODES),
        line[4] as usize,
        line[5] as usize,
        line[6] as usize,
        list(words, spans, spans::INTERACTIONS),
        list(words, spans, spans::WEIGHTS),
        list_of_bytes(bytes, spans, spans::NAMES),
        list(words, spans, spans::TUPLES),
        list(words, spans, spans::MULTIPLICITIES),
        list(words, spans, spans::FLAGS),
        list(words, spans, spans::ELEMENTS),
        lookups,
        used,
        details,
    )
}

// The words of the lookups that are built are the case's list of lookups.
pub fn build(line: &[u64; 8], words: &[u32], bytes: &[u8], spans: &[usize; 74]) -> Answer {
    let mut buffer = [7u32; 32768];
    let mut used = [7u64; 1];
    let mut details = [0u64; 3];
    let expected = list(words, spans, spans::LOOKUPS);
    let n = room(expected);
    let number = call_build(
        line,
        words,
        bytes,
        spans,
        &mut buffer[0..n],
        &mut used,
        &mut details,
    );
    let same = holds(&buffer, expected) & (used[0] == line[7]);
    compared(number, &details, line, same)
}
