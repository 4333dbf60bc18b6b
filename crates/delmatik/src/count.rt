// Counts, for callers that hold words. A count is its node and its weight.
ghost use Rattle.std.specs.Prelude.{◌≡◌};
ghost use Rattle.expression.specs.Choices.{choices_of};
ghost use Rattle.lookup_count.specs.Count.{count_of, from_i32_at, negated_at};
ghost use Rattle.delmatik_answers.specs.Count.{count_words};
ghost use Rattle.delmatik.specs.Exports.{exported_count};

use delmatik_answers::answer::{verdict, write_answer};
use delmatik_answers::count::{write_count, write_counted};
use expression::choices::Choices;
use lookup_count::count::{Count, bounded, from_i32, negated, provided};

// `Count` from a number: a constant is added as node `used`. A refusal leaves count and nodes as they were.
pub fn delmatik_count_from_i32(
    field: u32,
    profile: u32,
    nodes: &mut [u32],
    used: usize,
    x: i32,
    count: &mut [u32; 2],
    details: &mut [u64; 3],
) -> u32
    ensures { record { number = result; details = details.new; count = count.new; nodes = nodes.new }
        ≡ exported_count (from_i32_at (choices_of field profile) nodes.old used x) count.old }
{
    let a = from_i32(Choices { field, profile }, nodes, used, x);
    write_counted(a, count);
    write_answer(verdict(a), details)
}

// The count with the other sign: a negation is added as node `used`. A refusal leaves count and nodes as they were.
pub fn delmatik_count_negated(
    field: u32,
    profile: u32,
    nodes: &mut [u32],
    used: usize,
    node: u32,
    weight: u32,
    count: &mut [u32; 2],
    details: &mut [u64; 3],
) -> u32
    ensures { record { number = result; details = details.new; count = count.new; nodes = nodes.new }
        ≡ exported_count (negated_at (choices_of field profile) nodes.old used (count_of node weight)) count.old }
{
    let a = negated(
        Choices { field, profile },
        nodes,
        used,
        Count { node, weight },
    );
    write_counted(a, count);
    write_answer(verdict(a), details)
}

// A count that the table's constraints keep within a bound.
pub fn delmatik_count_bounded(node: u32, weight: u32, count: &mut [u32; 2])
    ensures { count.new ≡ count_words (count_of node weight) }
{
    write_count(bounded(node, weight), count);
}

// A provided entry, which the height bound leaves out.
pub fn delmatik_count_provided(node: u32, count: &mut [u32; 2])
    ensures { count.new ≡ count_words (count_of node 0) }
{
    write_count(provided(node), count);
}
