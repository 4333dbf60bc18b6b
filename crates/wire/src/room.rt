// A room of words that the caller lends, for lists that it holds as bytes: the words of the lists, one list after the other.
ghost use Rattle.std.specs.Prelude.{◌≡◌, [], ◌∷◌, ◌+◌, ◌/◌, ◌≤◌, length};
ghost use Rattle.wire.specs.Wire.{words_of};
ghost use Rattle.wire.specs.inner.Place.{placed, word_count, less, all_less, filled, Five};

use crate::words::decode;

// How many words are left of a room of `left` words after a list of so many bytes: none if it does not fit. Sizes alone, so that nothing is lent for
// the test.
pub fn less(left: Option<usize>, bytes: usize) -> Option<usize>
    ensures { result ≡ less left bytes }
{
    let words = left?;
    if (bytes % 4 == 0) & (bytes / 4 <= words) {
        Some(words - bytes / 4)
    } else {
        None
    }
}

// After five lists.
pub fn less_five(
    left: Option<usize>,
    a: usize,
    b: usize,
    c: usize,
    d: usize,
    e: usize,
) -> Option<usize>
    ensures { result ≡ all_less left (a ∷ b ∷ c ∷ d ∷ e ∷ []) }
{
    less(less(less(less(less(left, a), b), c), d), e)
}

// The lists fit, and no word of the room is left over.
pub fn filled(left: Option<usize>) -> bool
    ensures { result ≡ filled left }
{
    left == Some(0)
}

// The words of the bytes, into the room from a place on. The place after them is returned.
pub fn fill(bytes: &[u8], room: &mut [u32], at: usize) -> usize
    requires { at + length bytes.now / 4 ≤ length room.old }
    ensures { (result ≡ at + length bytes.now / 4) × (room.new ≡ placed at (words_of bytes.now) room.old) }
{
    let end = at + bytes.len() / 4;
    decode(bytes, &mut room[at..end]);
    end
}

// Where each of five lists ends. Five by name and no array, since each list has its own place in the doors on bytes: an index would say less.
#[derive(Clone, Copy)]
pub struct Ends {
    pub first: usize,
    pub second: usize,
    pub third: usize,
    pub fourth: usize,
    pub fifth: usize,
}

// Five lists, one after the other, from a place on.
pub fn fill_five(
    a: &[u8],
    b: &[u8],
    c: &[u8],
    d: &[u8],
    e: &[u8],
    room: &mut [u32],
    at: usize,
) -> Ends
    requires { at + word_count (a.now ∷ b.now ∷ c.now ∷ d.now ∷ e.now ∷ []) ≤ length room.old }
    ensures { Five a.now b.now c.now d.now e.now at room.old room.new result }
{
    let first = fill(a, room, at);
    let second = fill(b, room, first);
    let third = fill(c, room, second);
    let fourth = fill(d, room, third);
    let fifth = fill(e, room, fourth);
    Ends {
        first,
        second,
        third,
        fourth,
        fifth,
    }
}
