// Counts.
use crate::answer::{Answer, compared};
use crate::spans;
use crate::spans::{choice, holds, list, room, same_two};
use crate::text::word;
use delmatik::count::{
    delmatik_count_bounded, delmatik_count_from_i32, delmatik_count_negated,
    delmatik_count_provided,
};

// The number that a word says, which is that number + 2^32 where it is negative.
fn signed(w: u32) -> i32 {
    if w < 2147483648 {
        return w as i32;
    }
    let rest = (4294967295 - w) as i32;
    -1 - rest
}

fn put(out: &mut [u32], at: usize, w: u32) {
    if out.len() <= at {
        return;
    }
    out[at] = w;
}

// The nodes of a case into a lent list; what finds no room there is left out.
fn lend(nodes: &[u32], out: &mut [u32]) {
    for i in 0..nodes.len() {
        put(out, i, nodes[i]);
    }
}

fn call_from_i32(
    line: &[u64; 8],
    words: &[u32],
    spans: &[usize; 74],
    out: &mut [u32],
    count: &mut [u32; 2],
    details: &mut [u64; 3],
) -> u32 {
    lend(list(words, spans, spans::NODES), out);
    delmatik_count_from_i32(
        choice(words, spans, spans::FIELD),
        choice(words, spans, spans::PROFILE),
        out,
        line[4] as usize,
        signed(word(line[5])),
        count,
        details,
    )
}

fn call_negated(
    line: &[u64; 8],
    words: &[u32],
    spans: &[usize; 74],
    out: &mut [u32],
    count: &mut [u32; 2],
    details: &mut [u64; 3],
) -> u32 {
    lend(list(words, spans, spans::NODES), out);
    delmatik_count_negated(
        choice(words, spans, spans::FIELD),
        choice(words, spans, spans::PROFILE),
        out,
        line[4] as usize,
        word(line[5]),
        word(line[6]),
        count,
        details,
    )
}

// The nodes afterwards, and the count.
fn as_said(words: &[u32], spans: &[usize; 74], buffer: &[u32; 32768], count: &[u32; 2]) -> bool {
    holds(buffer, list(words, spans, spans::NODES_AFTER))
        & same_two(count, list(words, spans, spans::COUNT))
}

pub fn from_number(line: &[u64; 8], words: &[u32], spans: &[usize; 74]) -> Answer {
    let mut buffer = [7u32; 32768];
    let mut count = [7u32; 2];
    let mut details = [0u64; 3];
    let end = room(list(words, spans, spans::NODES));
    let number = call_from_i32(
        line,
        words,
        spans,
        &mut buffer[0..end],
        &mut count,
        &mut details,
    );
    compared(
        number,
        &details,
        line,
        as_said(words, spans, &buffer, &count),
    )
}

pub fn negated(line: &[u64; 8], words: &[u32], spans: &[usize; 74]) -> Answer {
    let mut buffer = [7u32; 32768];
    let mut count = [7u32; 2];
    let mut details = [0u64; 3];
    let end = room(list(words, spans, spans::NODES));
    let number = call_negated(
        line,
        words,
        spans,
        &mut buffer[0..end],
        &mut count,
        &mut details,
    );
    compared(
        number,
        &details,
        line,
        as_said(words, spans, &buffer, &count),
    )
}

pub fn bounded(line: &[u64; 8], words: &[u32], spans: &[usize; 74]) -> Answer {
    let mut count = [7u32; 2];
    let details = [0u64; 3];
    delmatik_count_bounded(word(line[4]), word(line[5]), &mut count);
    compared(
        0,
        &details,
        line,
        same_two(&count, list(words, spans, spans::COUNT)),
    )
}

pub fn provided(line: &[u64; 8], words: &[u32], spans: &[usize; 74]) -> Answer {
    let mut count = [7u32; 2];
    let details = [0u64; 3];
    delmatik_count_provided(word(line[4]), &mut count);
    compared(
        0,
        &details,
        line,
        same_two(&count, list(words, spans, spans::COUNT)),
    )
}
