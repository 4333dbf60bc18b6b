// Packing.
use crate::answer::{Answer, compared};
use crate::spans;
use crate::spans::{
    at, choice, holds, holds_bytes, list, list_of_bytes, room, room_of_bytes, size,
};
use delmatik::pack_same_bus::delmatik_pack;
use expression::words::to_u64;

// The table's lists, lent to packing with its output lists.
fn call_pack(
    limit: u64,
    words: &[u32],
    bytes: &[u8],
    spans: &[usize; 74],
    lookups: &mut [u32],
    names: &mut [u8],
    tuples: &mut [u32],
    multiplicities: &mut [u32],
    flags: &mut [u32],
    elements: &mut [u32],
    used: &mut [u64; 6],
    details: &mut [u64; 3],
) -> u32 {
    let sizes = list(words, spans, spans::SIZES);
    let public_values = list(words, spans, spans::PUBLIC);
    delmatik_pack(
        choice(words, spans, spans::FIELD),
        choice(words, spans, spans::PROFILE),
        limit,
        size(sizes, 0),
        size(sizes, 2),
        public_values.len(),
        list(words, spans, spans::NODES),
        list(words, spans, spans::LOOKUPS),
        list_of_bytes(bytes, spans, spans::NAMES),
        list(words, spans, spans::TUPLES),
        list(words, spans, spans::MULTIPLICITIES),
        list(words, spans, spans::FLAGS),
        list(words, spans, spans::ELEMENTS),
        lookups,
        names,
        tuples,
        multiplicities,
        flags,
        elements,
        used,
        details,
    )
}

// Whether so much of each list is used.
fn used_same(used: &[u64; 6], expected: &[u32]) -> bool {
    (used[0] == to_u64(at(expected, 0)))
        & (used[1] == to_u64(at(expected, 1)))
        & (used[2] == to_u64(at(expected, 2)))
        & (used[3] == to_u64(at(expected, 3)))
        & (used[4] == to_u64(at(expected, 4)))
        & (used[5] == to_u64(at(expected, 5)))
}

// Whether the output lists hold what the case has.
fn packed_same(
    words: &[u32],
    bytes: &[u8],
    spans: &[usize; 74],
    lookups: &[u32; 32768],
    names: &[u8; 4096],
    tuples: &[u32; 32768],
    multiplicities: &[u32; 32768],
    flags: &[u32; 32768],
    elements: &[u32; 32768],
) -> bool {
    let packed = list(words, spans, spans::PACKED_MULTIPLICITIES);
    holds(lookups, list(words, spans, spans::PACKED_LOOKUPS))
        & holds_bytes(names, list_of_bytes(bytes, spans, spans::PACKED_NAMES))
        & holds(tuples, list(words, spans, spans::PACKED_TUPLES))
        & holds(multiplicities, packed)
        & holds(flags, list(words, spans, spans::PACKED_FLAGS))
        & holds(elements, list(words, spans, spans::PACKED_ELEMENTS))
}

pub fn pack(line: &[u64; 8], words: &[u32], bytes: &[u8], spans: &[usize; 74]) -> Answer {
    let mut lookups = [7u32; 32768];
    let mut names = [7u8; 4096];
    let mut tuples = [7u32; 32768];
    let mut multiplicities = [7u32; 32768];
    let mut flags = [7u32; 32768];
    let mut elements = [7u32; 32768];
    let mut used = [7u64; 6];
    let mut details = [0u64; 3];
    let lookups_end = room(list(words, spans, spans::PACKED_LOOKUPS));
    let names_end = room_of_bytes(list_of_bytes(bytes, spans, spans::PACKED_NAMES));
    let tuples_end = room(list(words, spans, spans::PACKED_TUPLES));
    let multiplicities_end = room(list(words, spans, spans::PACKED_MULTIPLICITIES));
    let flags_end = room(list(words, spans, spans::PACKED_FLAGS));
    let elements_end = room(list(words, spans, spans::PACKED_ELEMENTS));
    let number = call_pack(
        line[4],
        words,
        bytes,
        spans,
        &mut lookups[0..lookups_end],
        &mut names[0..names_end],
        &mut tuples[0..tuples_end],
        &mut multiplicities[0..multiplicities_end],
        &mut flags[0..flags_end],
        &mut elements[0..elements_end],
        &mut used,
        &mut details,
    );
    let whole = used_same(&used, list(words, spans, spans::USED));
    let same = packed_same(
        words,
        bytes,
        spans,
        &lookups,
        &names,
        &tuples,
        &multiplicities,
        &flags,
        &elements,
    );
    compared(number, &details, line, same & whole)
}
