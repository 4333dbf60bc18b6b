// Prefixes that keep buses apart, from one pair of challenges.
ghost use Rattle.std.specs.Prelude.{◌≡◌, ◌++◌, ◌+◌, ◌*◌, ◌<◌, ◌≤◌, length, drop};
ghost use Rattle.lists.specs.Count.{joined};
ghost use Rattle.field.specs.inner.Requires.{KnownPrime};
ghost use Rattle.field.specs.Element.{Word4};
ghost use Rattle.field.specs.Ext.{ext_words};
ghost use Rattle.expression.specs.Limits.{Sane};
ghost use Rattle.expression.specs.Refusal.{refusal, numbers};
ghost use Rattle.lookup_challenges.specs.Prefixes.{prefix_by, prefix, prefixes_fit, prefixes_refusal, prefixes_after, prefixes_at};
ghost use Rattle.lookup_challenges.specs.inner.Requires.{ChallengeLists, challenge_lists, Writable};

use expression::choices::{Choices, known, limits_of};
use expression::refusal::Refusal;
use expression::sizes::Limits;
use expression::words::all_below;
use field::extension::{Ext, add, load, power, scale, store};
use field::modulus::{prime_of, w_of};
use field::word::reduce;

// alpha and beta are one element each, W and the number of prefixes are within their limits, and the prefixes have room.
fn fits(
    limits: Limits,
    alpha: &[u32],
    beta: &[u32],
    width: usize,
    count: usize,
    room: usize,
) -> bool
    ensures { result ≡ prefixes_fit limits alpha.now beta.now width count room }
{
    (alpha.len() == 4)
        & (beta.len() == 4)
        & (width <= limits.prefix_width as usize)
        & (count <= limits.prefixes)
        & (count <= room)
}

// Prefix i, from gamma = beta^W.
fn prefix(p: u32, alpha: Ext, gamma: Ext, i: usize) -> Ext
    requires { KnownPrime p × Word4 p (ext_words alpha) × Word4 p (ext_words gamma) × (i < 4294967295) }
    ensures { ext_words result ≡ prefix_by p (ext_words alpha) (ext_words gamma) i }
{
    add(p, alpha, scale(p, reduce(p, (i + 1) as u64), gamma))
}

fn fill(p: u32, alpha: Ext, gamma: Ext, count: usize, out: &mut [u32])
    requires { KnownPrime p × Word4 p (ext_words alpha) × Word4 p (ext_words gamma) × (count ≤ 4294967295) × (4 * count ≤ length out.old) }
    ensures { out.new ≡ joined (prefix_by p (ext_words alpha) (ext_words gamma)) 0 count ++ drop (4 * count) out.old }
{
    for i in 0..count {
        store(&mut out[4 * i..4 * i + 4], prefix(p, alpha, gamma, i));
    }
}

fn write(p: u32, w: u32, alpha: &[u32], beta: &[u32], width: usize, count: usize, out: &mut [u32])
    requires { let l : ChallengeLists = challenge_lists alpha.now beta.now out.old in KnownPrime p × (w < p) × Writable p l.alpha l.beta width count l.out }
    ensures { let l : ChallengeLists = challenge_lists alpha.now beta.now out.old in out.new ≡ joined (prefix p w l.alpha l.beta width) 0 count ++ drop (4 * count) l.out }
{
    let gamma = power(p, w, load(beta, 0), width as u32);
    fill(p, load(alpha, 0), gamma, count, out);
}

// `count` prefixes into the front of a lent list.
pub fn prefixes(
    limits: Limits,
    p: u32,
    w: u32,
    alpha: &[u32],
    beta: &[u32],
    width: usize,
    count: usize,
    out: &mut [u32],
) -> Result<(), Refusal>
    requires { Sane limits × KnownPrime p × (w < p) }
    ensures { let l : ChallengeLists = challenge_lists alpha.now beta.now out.old in (refusal result ≡ prefixes_refusal limits p l.alpha l.beta width count l.out)
        × (out.new ≡ prefixes_after (refusal result) p w l.alpha l.beta width count l.out) }
{
    if !fits(limits, alpha, beta, width, count, out.len() / 4) {
        return Err(Refusal::SizeAtOdds);
    }
    if !(all_below(p, alpha) & all_below(p, beta)) {
        return Err(Refusal::WordTooLarge);
    }
    if width == 0 {
        return Err(Refusal::WidthZero);
    }
    write(p, w, alpha, beta, width, count, out);
    Ok(())
}

// `Challenges::new`, at the choices of the call.
pub fn new(
    choices: Choices,
    alpha: &[u32],
    beta: &[u32],
    width: usize,
    count: usize,
    out: &mut [u32],
) -> Result<(), Refusal>
    ensures { record { answer = numbers (refusal result); out = out.new }
        ≡ prefixes_at choices alpha.now beta.now width count out.old }
{
    if !known(choices) {
        return Err(Refusal::SizeAtOdds);
    }
    prefixes(
        limits_of(choices.profile),
        prime_of(choices.field),
        w_of(choices.field),
        alpha,
        beta,
        width,
        count,
        out,
    )
}
