// The exported functions of several tables.
use crate::answer::{Answer, compared};
use crate::spans;
use crate::spans::{choice, holds, list, list_of_bytes, room};
use delmatik::check_lookups::delmatik_balance;
use delmatik::protocol::delmatik_height_bound;
use delmatik::types::delmatik_widths;

pub fn widths(line: &[u64; 8], words: &[u32], bytes: &[u8], spans: &[usize; 74]) -> Answer {
    let mut value = [7u64; 1];
    let mut details = [0u64; 3];
    let number = delmatik_widths(
        choice(words, spans, spans::FIELD),
        choice(words, spans, spans::PROFILE),
        list(words, spans, spans::LOOKUPS),
        list_of_bytes(bytes, spans, spans::NAMES),
        list(words, spans, spans::TUPLES),
        list(words, spans, spans::LISTS),
        &mut value,
        &mut details,
    );
    compared(number, &details, line, value[0] == line[4])
}

pub fn bound(line: &[u64; 8], words: &[u32], spans: &[usize; 74]) -> Answer {
    let mut details = [0u64; 3];
    let number = delmatik_height_bound(
        choice(words, spans, spans::FIELD),
        choice(words, spans, spans::PROFILE),
        list(words, spans, spans::LOOKUPS),
        list(words, spans, spans::COUNTS),
        list(words, spans, spans::HEIGHTS),
        &mut details,
    );
    compared(number, &details, line, true)
}

// A seed of balance; every other one has the same answers.
const SEED: u64 = 1;

// The lists of all tables, lent to balance.
fn call_balance(
    words: &[u32],
    bytes: &[u8],
    spans: &[usize; 74],
    workspace: &mut [u32],
    details: &mut [u64; 3],
) -> u32 {
    delmatik_balance(
        choice(words, spans, spans::FIELD),
        choice(words, spans, spans::PROFILE),
        list(words, spans, spans::MAIN),
        list(words, spans, spans::PREPROCESSED),
        list(words, spans, spans::PUBLIC),
        list(words, spans, spans::NODES),
        list(words, spans, spans::LOOKUPS),
        list_of_bytes(bytes, spans, spans::NAMES),
        list(words, spans, spans::TUPLES),
        list(words, spans, spans::MULTIPLICITIES),
        list(words, spans, spans::FLAGS),
        list(words, spans, spans::ELEMENTS),
        list(words, spans, spans::SIZES),
        SEED,
        workspace,
        details,
    )
}

pub fn balance(line: &[u64; 8], words: &[u32], bytes: &[u8], spans: &[usize; 74]) -> Answer {
    let mut buffer = [7u32; 32768];
    let mut details = [0u64; 3];
    let expected = list(words, spans, spans::WORKSPACE);
    let n = room(expected);
    let number = call_balance(words, bytes, spans, &mut buffer[0..n], &mut details);
    compared(number, &details, line, holds(&buffer, expected))
}
