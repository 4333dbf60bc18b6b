// Several tables: where the lists of a table lie in the lists of all tables. `sizes` has a record of so many words for each table.
ghost use Rattle.std.specs.Prelude.{◌≡◌, List, ℕ, ◌+◌, ◌*◌, ◌<◌, ◌≤◌};
ghost use Rattle.lookup.specs.Sizes.{size, size_start};

use expression::words::{total_of, word_at};

// Size f of table t.
pub fn size(sizes: &[u32], words: usize, f: usize, t: usize) -> usize
    requires { (words ≤ 16) × (f < words) × (t ≤ 4294967295) }
    ensures { (result ≡ size words sizes.now f t) × (result ≤ 4294967295) }
{
    word_at(sizes, words * t + f) as usize
}

// What the tables before table t have of size f.
pub fn size_start(sizes: &[u32], words: usize, f: usize, t: usize) -> usize
    requires { (words ≤ 16) × (f < words) × (t ≤ 4294967295) }
    ensures { (result ≡ size_start words sizes.now f t) × (result ≤ t * 4294967295) }
{
    total_of(sizes, words, f, t)
}

// Where the part of table t begins in a list of which size f counts units of so many words, and where it ends.
pub fn part_start(sizes: &[u32], words: usize, f: usize, unit: usize, t: usize) -> usize
    requires { (words ≤ 16) × (f < words) × (unit ≤ 9) × (t ≤ 16) }
    ensures { (result ≡ unit * size_start words sizes.now f t) × (result ≤ 618475290480) }
{
    unit * size_start(sizes, words, f, t)
}

pub fn part_end(sizes: &[u32], words: usize, f: usize, unit: usize, t: usize) -> usize
    requires { (words ≤ 16) × (f < words) × (unit ≤ 9) × (t ≤ 16) }
    ensures { let s : List ℕ = sizes.now in (result ≡ unit * size_start words s f t + unit * size words s f t) × (result ≤ 657129996135) }
{
    unit * size_start(sizes, words, f, t) + unit * size(sizes, words, f, t)
}
