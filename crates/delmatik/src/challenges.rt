// Prefixes for callers that hold words.
ghost use Rattle.std.specs.Prelude.{◌≡◌};
ghost use Rattle.expression.specs.Choices.{choices_of};
ghost use Rattle.lookup_challenges.specs.Prefixes.{prefixes_at};
ghost use Rattle.delmatik.specs.Exports.{exported_prefixes};

use delmatik_answers::answer::write_answer;
use expression::choices::Choices;
use lookup_challenges::challenges::new;

// `Challenges::new`: so many prefixes into the front of `out`, four words each.
pub fn delmatik_prefixes(
    field: u32,
    profile: u32,
    alpha: &[u32],
    beta: &[u32],
    width: usize,
    count: usize,
    out: &mut [u32],
    details: &mut [u64; 3],
) -> u32
    ensures { record { number = result; details = details.new; out = out.new }
        ≡ exported_prefixes (prefixes_at (choices_of field profile) alpha.now beta.now width count out.old) }
{
    let v = new(Choices { field, profile }, alpha, beta, width, count, out);
    write_answer(v, details)
}
