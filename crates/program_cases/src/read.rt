// The numbers of a line, into an array; what finds no room there is left out.
ghost use Rattle.std.specs.Prelude.{◌≤◌, length};

use crate::text::{after, byte, digits_end, number, word};

fn put_word(words: &mut [u32; 32768], at: usize, n: u64) -> usize {
    if at < 32768 {
        words[at] = word(n);
        return at + 1;
    }
    at
}

// The numbers after `from` go to the words from `start` on; answers where they end.
pub fn read_words(line: &[u8], from: usize, words: &mut [u32; 32768], start: usize) -> usize
    requires { from ≤ length line.now }
{
    let mut end = start;
    let mut at = from;
    while at < line.len() {
        let stop = digits_end(line, at);
        if at < stop {
            end = put_word(words, end, number(&line[at..stop]));
        }
        at = after(line, at, stop);
    }
    end
}

fn put_byte(bytes: &mut [u8; 4096], at: usize, n: u64) -> usize {
    if at < 4096 {
        bytes[at] = byte(n);
        return at + 1;
    }
    at
}

// The same for bytes.
pub fn read_bytes(line: &[u8], from: usize, bytes: &mut [u8; 4096], start: usize) -> usize
    requires { from ≤ length line.now }
{
    let mut end = start;
    let mut at = from;
    while at < line.len() {
        let stop = digits_end(line, at);
        if at < stop {
            end = put_byte(bytes, end, number(&line[at..stop]));
        }
        at = after(line, at, stop);
    }
    end
}

fn put_number(out: &mut [u64; 8], at: usize, n: u64) -> usize {
    if at < 8 {
        out[at] = n;
        return at + 1;
    }
    at
}

// The first eight numbers after `from`.
pub fn read_numbers(line: &[u8], from: usize, out: &mut [u64; 8])
    requires { from ≤ length line.now }
{
    let mut end = 0;
    let mut at = from;
    while at < line.len() {
        let stop = digits_end(line, at);
        if at < stop {
            end = put_number(out, end, number(&line[at..stop]));
        }
        at = after(line, at, stop);
    }
}
