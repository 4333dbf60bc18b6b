// A count's answer as numbers.
ghost use Rattle.std.specs.Prelude.{◌≡◌};
ghost use Rattle.delmatik_answers.specs.Count.{count_words, counted_words};

use expression::refusal::Refusal;
use lookup_count::count::Count;

pub fn write_count(c: Count, out: &mut [u32; 2])
    ensures { out.new ≡ count_words c }
{
    *out = [c.node, c.weight];
}

// The node and the weight; a refusal writes nothing.
pub fn write_counted(a: Result<Count, Refusal>, out: &mut [u32; 2])
    ensures { out.new ≡ counted_words a out.old }
{
    if let Ok(c) = a {
        write_count(c, out);
    }
}
