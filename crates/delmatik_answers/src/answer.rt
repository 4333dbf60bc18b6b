// An answer as numbers: its number, 0 where nothing is refused, and three details (SPECIFICATION, section 14.1).
ghost use Rattle.std.specs.Prelude.{◌≡◌};
ghost use Rattle.expression.specs.Refusal.{the_details, refusal, answer_number, answer_details};
ghost use Rattle.delmatik_answers.specs.Refused.{refused};

use expression::refusal::{Refusal, ThreeDetails};

// What an answer refuses, whatever it else holds.
pub fn verdict<T: Copy>(a: Result<T, Refusal>) -> Result<(), Refusal>
    ensures { refusal result ≡ refused a }
{
    a?;
    Ok(())
}

pub fn write_details(d: ThreeDetails, out: &mut [u64; 3])
    ensures { out.new ≡ the_details d }
{
    *out = [d.first, d.second, d.third];
}

pub fn number(v: Result<(), Refusal>) -> u32
    ensures { result ≡ answer_number (refusal v) }
{
    match v {
        Ok(()) => 0,
        Err(f) => f.number(),
    }
}

pub fn details(v: Result<(), Refusal>) -> ThreeDetails
    ensures { the_details result ≡ answer_details (refusal v) }
{
    match v {
        Ok(()) => ThreeDetails {
            first: 0,
            second: 0,
            third: 0,
        },
        Err(f) => f.details(),
    }
}

// The number is returned, the details are written.
pub fn write_answer(v: Result<(), Refusal>, out: &mut [u64; 3]) -> u32
    ensures { (result ≡ answer_number (refusal v)) × (out.new ≡ answer_details (refusal v)) }
{
    write_details(details(v), out);
    number(v)
}
