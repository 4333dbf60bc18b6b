// Building's answer as numbers.
ghost use Rattle.std.specs.Prelude.{◌≡◌};
ghost use Rattle.delmatik_answers.specs.Types.{number_written};

use expression::refusal::Refusal;

// How many words are used; a refusal writes nothing. Beside `write_number`, since a usize is no u64 before it is written.
pub fn write_built(a: Result<usize, Refusal>, out: &mut [u64; 1])
    ensures { out.new ≡ number_written a out.old }
{
    if let Ok(n) = a {
        *out = [n as u64];
    }
}
