// Powers and inverses of one extension element, for callers that hold four words.
ghost use Rattle.std.specs.Prelude.{◌≡◌, length};
ghost use Rattle.expression.specs.Refusal.{refusal};
ghost use Rattle.delmatik_answers.specs.Element.{four_below, element_refusal, exported_power, exported_inverse};

use expression::refusal::Refusal;
use field::extension;
use field::modulus::{known_field, prime_of, w_of};

// Whether the first four words are below p.
fn below(p: u32, a: &[u32]) -> bool
    requires { length a.now ≡ 4 }
    ensures { result ≡ four_below p a.now }
{
    (a[0] < p) & (a[1] < p) & (a[2] < p) & (a[3] < p)
}

// Refusal 1 where the field is unknown or a or out is not four words, 2 where a word is not below p.
fn test(field: u32, a: &[u32], out: &[u32]) -> Result<(), Refusal>
    ensures { refusal result ≡ element_refusal field a.now (length out.now) }
{
    if !(known_field(field) & (a.len() == 4) & (out.len() == 4)) {
        return Err(Refusal::SizeAtOdds);
    }
    if !below(prime_of(field), a) {
        return Err(Refusal::WordTooLarge);
    }
    Ok(())
}

// a to the power n.
pub fn power(field: u32, a: &[u32], n: u32, out: &mut [u32]) -> u32
    ensures { record { number = result; out = out.new } ≡ exported_power field a.now n out.old }
{
    if let Err(f) = test(field, a, out) {
        return f.number();
    }
    extension::store(
        out,
        extension::power(prime_of(field), w_of(field), extension::load(a, 0), n),
    );
    0
}

// 1 ÷ a, and 0 where a is 0.
pub fn inverse(field: u32, a: &[u32], out: &mut [u32]) -> u32
    ensures { record { number = result; out = out.new } ≡ exported_inverse field a.now out.old }
{
    if let Err(f) = test(field, a, out) {
        return f.number();
    }
    extension::store(
        out,
        extension::inv(prime_of(field), w_of(field), extension::load(a, 0)),
    );
    0
}
