// The number and the three details of each refusal (SPECIFICATION, section 10.1), as functions: refusal.rt has them as methods.
ghost use Rattle.std.specs.Prelude.{◌≡◌};
ghost use Rattle.expression.specs.Refusal.{number, details, the_details};

use crate::refusal::{Refusal, ThreeDetails};

pub fn number(f: Refusal) -> u32
    ensures { result ≡ number f }
{
    f.number()
}

pub fn details(f: Refusal) -> ThreeDetails
    ensures { the_details result ≡ details f }
{
    f.details()
}
