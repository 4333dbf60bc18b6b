// What a function answered, beside what the case says.
use expression::words::to_u64;

// What a function answered, and whether that and its outputs are what the case says.
#[derive(Clone, Copy)]
pub struct Answer {
    pub number: u64,
    pub first: u64,
    pub second: u64,
    pub third: u64,
    pub same: bool,
}

// An answer beside the numbers of the case's line, which are its number and the three details.
pub fn compared(number: u32, details: &[u64; 3], line: &[u64; 8], same: bool) -> Answer {
    let n = to_u64(number);
    let first = details[0];
    let second = details[1];
    let third = details[2];
    let as_said = (n == line[0]) & (first == line[1]) & (second == line[2]) & (third == line[3]);
    Answer {
        number: n,
        first,
        second,
        third,
        same: same & as_said,
    }
}
