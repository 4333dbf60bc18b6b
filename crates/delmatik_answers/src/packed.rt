// Packing's answer as numbers.
ghost use Rattle.std.specs.Prelude.{◌≡◌};
ghost use Rattle.expression.specs.Refusal.{refusal};
ghost use Rattle.delmatik_answers.specs.Packing.{counts_words, packing_refused, packing_used};

use crate::answer::verdict;
use expression::refusal::Refusal;
use packing::answer::Counts;

pub fn packing_verdict(a: Result<Counts, Refusal>) -> Result<(), Refusal>
    ensures { refusal result ≡ packing_refused a }
{
    verdict(a)
}

pub fn write_counts(c: Counts, out: &mut [u64; 6])
    ensures { out.new ≡ counts_words c }
{
    *out = [
        c.lookups as u64,
        c.names as u64,
        c.tuples as u64,
        c.multiplicities as u64,
        c.flags as u64,
        c.elements as u64,
    ];
}

// How much of each list is used; a refusal writes nothing.
pub fn write_used(a: Result<Counts, Refusal>, out: &mut [u64; 6])
    ensures { out.new ≡ packing_used a out.old }
{
    if let Ok(c) = a {
        write_counts(c, out);
    }
}
