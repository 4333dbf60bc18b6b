// What building is given: interactions, two words each, and how many there are of each kind.
ghost use Rattle.std.specs.Prelude.{◌≡◌, ◌+◌, ◌*◌, ◌≤◌, length};
ghost use Rattle.lookup_builder.specs.Building.{interaction_words, name_bytes, tuple_number};

// The words of an interaction: the length of its name, then the number of its tuples.
pub const INTERACTION_WORDS: usize = 2;

pub const NAME_BYTES_WORD: usize = 0;

pub const TUPLE_NUMBER_WORD: usize = 1;

// The interactions: a record of two words each, and what these count, one interaction after the other, in six lists.
#[derive(Clone, Copy)]
pub struct LentInteractions<'a> {
    pub records: &'a [u32],
    pub weights: &'a [u32],
    pub names: &'a [u8],
    pub tuples: &'a [u32],
    pub multiplicities: &'a [u32],
    pub flags: &'a [u32],
    pub elements: &'a [u32],
}

// How many interactions there are of each kind; they come in this order.
#[derive(Clone, Copy)]
pub struct Kinds {
    pub locals: usize,
    pub globals: usize,
    pub exclusives: usize,
}

// How many bytes the name of interaction i has.
pub fn name_bytes(interactions: &[u32], i: usize) -> u32
    requires { interaction_words * i + interaction_words ≤ length interactions.now }
    ensures { result ≡ name_bytes interactions.now i }
{
    interactions[INTERACTION_WORDS * i + NAME_BYTES_WORD]
}

// How many tuples interaction i has.
pub fn tuple_number(interactions: &[u32], i: usize) -> u32
    requires { interaction_words * i + interaction_words ≤ length interactions.now }
    ensures { result ≡ tuple_number interactions.now i }
{
    interactions[INTERACTION_WORDS * i + TUPLE_NUMBER_WORD]
}
