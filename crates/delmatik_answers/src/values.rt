// The answers of degree and widths as numbers.
ghost use Rattle.std.specs.Prelude.{◌≡◌};
ghost use Rattle.delmatik_answers.specs.Types.{number_written};

use expression::refusal::Refusal;

// The degree, or the width of the widest tuple; a refusal writes nothing.
pub fn write_number(a: Result<u64, Refusal>, out: &mut [u64; 1])
    ensures { out.new ≡ number_written a out.old }
{
    if let Ok(n) = a {
        *out = [n];
    }
}
