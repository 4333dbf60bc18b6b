// Replays a text of cases, given on standard input, against the exported functions, and prints what it ran and how many answers there were.
// The functions are proved; that this program reads the text aright and compares every answer is not: it is proved safe, and that it ends.

#![tactic(auto)]

ghost use Rattle.std.specs.Prelude.{◌≡◌, length};

mod answer;
mod build;
mod counts;
mod elements;
mod pack;
mod read;
mod spans;
mod table;
mod tables;
mod text;

use crate::answer::Answer;
use crate::text::run_end;
use lookup::buses::same_bytes;
use std::num::wrapping_add_u64;

// How far the arrays of words and bytes are filled, and the counts so far.
#[derive(Clone, Copy)]
struct State {
    words: usize,
    bytes: usize,
    cases: u64,
    answers: u64,
    differ: u64,
}

// The number of a function's name; 17 where it is none.
fn function_number(name: &[u8]) -> usize {
    text::find(
        b"generate constraints degree pack build widths bound balance terminals prefixes power inverse row from-i32 negated bounded provided",
        name,
    )
}

// The functions of one table, by number.
fn call_of_table(
    number: usize,
    line: &[u64; 8],
    words: &[u32],
    bytes: &[u8],
    spans: &[usize; 74],
) -> Answer {
    match number {
        0 => table::generate(line, words, bytes, spans),
        1 => table::constraints(line, words, bytes, spans),
        2 => table::degree(line, words, bytes, spans),
        3 => pack::pack(line, words, bytes, spans),
        _ => build::build(line, words, bytes, spans),
    }
}

// The others.
fn call_of_others(
    number: usize,
    line: &[u64; 8],
    words: &[u32],
    bytes: &[u8],
    spans: &[usize; 74],
) -> Answer {
    match number {
        5 => tables::widths(line, words, bytes, spans),
        6 => tables::bound(line, words, spans),
        7 => tables::balance(line, words, bytes, spans),
        8 => elements::terminals(line, words, spans),
        9 => elements::prefixes(line, words, spans),
        10 => elements::power(line, words, spans),
        11 => elements::inverse(line, words, spans),
        _ => table::row(line, words, spans),
    }
}

// Those of counts.
fn call_of_counts(number: usize, line: &[u64; 8], words: &[u32], spans: &[usize; 74]) -> Answer {
    match number {
        13 => counts::from_number(line, words, spans),
        14 => counts::negated(line, words, spans),
        15 => counts::bounded(line, words, spans),
        _ => counts::provided(line, words, spans),
    }
}

fn call(
    number: usize,
    line: &[u64; 8],
    words: &[u32],
    bytes: &[u8],
    spans: &[usize; 74],
) -> Answer {
    if number < 5 {
        return call_of_table(number, line, words, bytes, spans);
    }
    if 13 <= number {
        return call_of_counts(number, line, words, spans);
    }
    call_of_others(number, line, words, bytes, spans)
}

fn print_detail(n: u64) {
    io::write_all(1, b",");
    io::print_decimal(1, n);
}

fn print_answer(name: &[u8], answer: Answer) {
    io::write_all(1, b" ");
    io::write_all(1, name);
    io::write_all(1, b" ");
    io::print_decimal(1, answer.number);
    print_detail(answer.first);
    print_detail(answer.second);
    print_detail(answer.third);
    if !answer.same {
        io::write_all(1, b" differs");
    }
}

// One difference more.
fn one_more(state: State) -> State {
    State {
        words: state.words,
        bytes: state.bytes,
        cases: state.cases,
        answers: state.answers,
        differ: wrapping_add_u64(state.differ, 1),
    }
}

// One answer more, and a difference where it is not as said.
fn counted(state: State, same: bool) -> State {
    let mut new = state;
    if !same {
        new = one_more(state);
    }
    new.answers = wrapping_add_u64(state.answers, 1);
    new
}

// A function's line.
fn answer_line(
    name: &[u8],
    numbers: &[u8],
    words: &[u32],
    bytes: &[u8],
    spans: &[usize; 74],
    state: State,
) -> State {
    let number = function_number(name);
    if 17 <= number {
        io::write_all(1, b" unknown");
        return one_more(state);
    }
    let mut line = [0u64; 8];
    read::read_numbers(numbers, 0, &mut line);
    let answer = call(number, &line, words, bytes, spans);
    print_answer(name, answer);
    counted(state, answer.same)
}

// A new case: the title on a line of its own, and all lists empty.
fn begin(title: &[u8], spans: &mut [usize; 74], state: State) -> State {
    if 0 < state.cases {
        io::write_all(1, b"\n");
    }
    io::write_all(1, title);
    *spans = [0usize; 74];
    State {
        words: 0,
        bytes: 0,
        cases: wrapping_add_u64(state.cases, 1),
        answers: state.answers,
        differ: state.differ,
    }
}

// A list that finds no room is said and counted as a difference.
fn filled(state: State, full: bool) -> State {
    if full {
        io::write_all(1, b" full");
        return one_more(state);
    }
    state
}

// The line of a list of words.
fn store_words(
    key: usize,
    numbers: &[u8],
    words: &mut [u32; 32768],
    spans: &mut [usize; 74],
    state: State,
) -> State {
    let a = state.words;
    let b = read::read_words(numbers, 0, words, a);
    spans::set_span(spans, key, a, b);
    let mut new = filled(state, b == 32768);
    new.words = b;
    new
}

// The line of a list of bytes.
fn store_bytes(
    key: usize,
    numbers: &[u8],
    bytes: &mut [u8; 4096],
    spans: &mut [usize; 74],
    state: State,
) -> State {
    let a = state.bytes;
    let b = read::read_bytes(numbers, 0, bytes, a);
    spans::set_span(spans, key, a, b);
    let mut new = filled(state, b == 4096);
    new.bytes = b;
    new
}

// A line that says something: a case, a list or a function.
fn statement(
    name: &[u8],
    rest: &[u8],
    words: &mut [u32; 32768],
    bytes: &mut [u8; 4096],
    spans: &mut [usize; 74],
    state: State,
) -> State {
    if same_bytes(name, b"case") {
        return begin(rest, spans, state);
    }
    let key = spans::key(name);
    if key < spans::NAMES {
        return store_words(key, rest, words, spans, state);
    }
    if key <= spans::PACKED_NAMES {
        return store_bytes(key, rest, bytes, spans, state);
    }
    answer_line(name, rest, words, bytes, spans, state)
}

// A line: nothing where it is empty or a comment.
fn line(
    line: &[u8],
    words: &mut [u32; 32768],
    bytes: &mut [u8; 4096],
    spans: &mut [usize; 74],
    state: State,
) -> State {
    if line.len() == 0 {
        return state;
    }
    if line[0] == b'#' {
        return state;
    }
    let end = run_end(line, 0, b' ');
    let at = text::after(line, 0, end);
    statement(&line[0..end], &line[at..], words, bytes, spans, state)
}

fn print_counts(state: State) {
    if 0 < state.cases {
        io::write_all(1, b"\n");
    }
    io::print_decimal(1, state.cases);
    io::write_all(1, b" cases, ");
    io::print_decimal(1, state.answers);
    io::write_all(1, b" answers, ");
    io::print_decimal(1, state.differ);
    io::write_all(1, b" differ\n");
}

// All lines of the text, one after the other.
fn replay(text: &[u8]) {
    let mut words = [0u32; 32768];
    let mut bytes = [0u8; 4096];
    let mut spans = [0usize; 74];
    let mut state = State {
        words: 0,
        bytes: 0,
        cases: 0,
        answers: 0,
        differ: 0,
    };
    let mut at = 0;
    while at < text.len() {
        let end = run_end(text, at, b'\n');
        state = line(&text[at..end], &mut words, &mut bytes, &mut spans, state);
        at = text::after(text, at, end);
    }
    print_counts(state);
}

// Room for the text, of which the contract says the length alone: what the checker need not write out, it need not walk through.
fn room() -> [u8; 524288]
    ensures { 524288 ≡ length result }
{
    [0u8; 524288]
}

fn main() {
    let mut text = room();
    let n = io::read_full(0, &mut text);
    if n == 524288 {
        io::write_all(1, b"the text is too long\n");
    }
    replay(&text[..n]);
}
