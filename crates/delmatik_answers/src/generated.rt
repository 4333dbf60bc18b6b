// Generation's answer as numbers.
ghost use Rattle.std.specs.Prelude.{◌≡◌};
ghost use Rattle.expression.specs.Refusal.{the_details};
ghost use Rattle.logup.specs.Generation.{answer_of};
ghost use Rattle.delmatik_answers.specs.Generation.{generation_number, generation_details, marked_words, generation_terminal};

use crate::answer::{details, number, verdict};
use expression::refusal::{Refusal, ThreeDetails};
use lookup::types::LookupTerminal;

// The number of an answer: 0 where nothing is refused.
pub fn generation_number(g: Result<Option<LookupTerminal>, Refusal>) -> u32
    ensures { result ≡ generation_number (answer_of g) }
{
    number(verdict(g))
}

pub fn generation_details(g: Result<Option<LookupTerminal>, Refusal>) -> ThreeDetails
    ensures { the_details result ≡ generation_details (answer_of g) }
{
    details(verdict(g))
}

// 1 and the terminal's four words, or zeros where there is none.
fn put_terminal(g: Result<Option<LookupTerminal>, Refusal>, out: &mut [u32; 5])
    ensures { out.new ≡ marked_words (answer_of g).terminal }
{
    *out = match g {
        Ok(Some(LookupTerminal(e))) => [1, e.c0, e.c1, e.c2, e.c3],
        Ok(None) | Err(_) => [0; 5],
    };
}

// The terminal; refusals 1 to 12 write nothing.
pub fn write_terminal(g: Result<Option<LookupTerminal>, Refusal>, out: &mut [u32; 5])
    ensures { out.new ≡ generation_terminal (answer_of g) out.old }
{
    let n = generation_number(g);
    if (0 < n) & (n <= 12) {
        return;
    }
    put_terminal(g, out);
}
