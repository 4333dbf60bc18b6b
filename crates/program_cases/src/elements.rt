// The exported functions of elements and terminals.
use crate::answer::{Answer, compared};
use crate::spans;
use crate::spans::{choice, holds, list, room};
use crate::text::word;
use delmatik::challenges::delmatik_prefixes;
use delmatik::element::{delmatik_inverse, delmatik_power};
use delmatik::protocol::delmatik_terminals;
use expression::words::to_u64;

pub fn terminals(line: &[u64; 8], words: &[u32], spans: &[usize; 74]) -> Answer {
    let mut details = [0u64; 3];
    let number = delmatik_terminals(
        choice(words, spans, spans::FIELD),
        choice(words, spans, spans::PROFILE),
        list(words, spans, spans::GIVEN),
        &mut details,
    );
    compared(number, &details, line, true)
}

pub fn prefixes(line: &[u64; 8], words: &[u32], spans: &[usize; 74]) -> Answer {
    let mut buffer = [7u32; 32768];
    let mut details = [0u64; 3];
    let pair = list(words, spans, spans::ELEMENT);
    let expected = list(words, spans, spans::WRITTEN);
    let n = room(expected);
    let number = delmatik_prefixes(
        choice(words, spans, spans::FIELD),
        choice(words, spans, spans::PROFILE),
        spans::front(pair),
        spans::back(pair),
        line[4] as usize,
        line[5] as usize,
        &mut buffer[0..n],
        &mut details,
    );
    compared(number, &details, line, holds(&buffer, expected))
}

// A power and an inverse have no details: their lines give the number, and that of a power the exponent.
fn told(number: u32, line: &[u64; 8], same: bool) -> Answer {
    let n = to_u64(number);
    Answer {
        number: n,
        first: 0,
        second: 0,
        third: 0,
        same: same & (n == line[0]),
    }
}

pub fn power(line: &[u64; 8], words: &[u32], spans: &[usize; 74]) -> Answer {
    let mut buffer = [7u32; 32768];
    let expected = list(words, spans, spans::RESULT);
    let end = room(expected);
    let number = delmatik_power(
        choice(words, spans, spans::FIELD),
        list(words, spans, spans::ELEMENT),
        word(line[1]),
        &mut buffer[0..end],
    );
    told(number, line, holds(&buffer, expected))
}

pub fn inverse(line: &[u64; 8], words: &[u32], spans: &[usize; 74]) -> Answer {
    let mut buffer = [7u32; 32768];
    let expected = list(words, spans, spans::RESULT);
    let end = room(expected);
    let number = delmatik_inverse(
        choice(words, spans, spans::FIELD),
        list(words, spans, spans::ELEMENT),
        &mut buffer[0..end],
    );
    told(number, line, holds(&buffer, expected))
}
