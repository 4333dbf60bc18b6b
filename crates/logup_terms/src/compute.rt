// The numerator and the common denominator of a lookup on one row, as the crate's `compute_combined_sum_terms` and
// `compute_exclusive_terms`: all true denominators, also where a multiplicity is 0. Flags are not tested.
ghost use Rattle.std.specs.Prelude.{◌≡◌, cond, [], ◌<◌, ◌≤◌, length};
ghost use Rattle.field.specs.inner.Requires.{KnownPrime};
ghost use Rattle.field.specs.Element.{Word4, zero4, one4};
ghost use Rattle.field.specs.Ext.{ext_words};
ghost use Rattle.lookup.specs.Lookups.{tuple_count, exclusive};
ghost use Rattle.logup.specs.Column.{Place};
ghost use Rattle.logup.specs.Constraints.{additive_numerator, additive_denominator, exclusive_numerator, exclusive_denominator};
ghost use Rattle.logup_column.specs.inner.Requires.{Field};
ghost use Rattle.logup_column.specs.inner.Powers.{beta_of, Powers};
ghost use Rattle.logup_column.specs.inner.Own.{own_place, FieldValues};
ghost use Rattle.logup_column.specs.inner.Results.{PartsFit};
ghost use Rattle.logup_terms.specs.inner.Constraint.{TermAdded, BranchAdded, Summed, FractionIs, LookupFraction, vanishing};

use expression::words::to_usize;
use field::extension::Ext;
use field::{extension, word};
use logup_column::tuple;
use lookup::types;

// A lookup's fraction on a row, not divided: its numerator and its common denominator.
#[derive(Clone, Copy)]
pub struct Fraction {
    pub numerator: Ext,
    pub denominator: Ext,
}

// What the branches of an exclusive lookup sum up to: flag · multiplicity and flags are words.
#[derive(Clone, Copy)]
pub struct Branches {
    pub numerator: u32,
    pub denominator: Ext,
    pub flags: u32,
}

// The fraction with tuple k's term: N ÷ D + m ÷ d = (N·d + m·D) ÷ (D·d). Before the first it is 0 ÷ 1, so that the first takes no product.
fn add_term(p: u32, w: u32, t: Fraction, k: usize, m: u32, d: Ext) -> Fraction
    requires { Field p w × Word4 p (ext_words t.numerator) × Word4 p (ext_words t.denominator) × (k ≡ 0 → (ext_words t.numerator ≡ zero4) × (ext_words t.denominator ≡ one4))
        × (m < p) × Word4 p (ext_words d) }
    ensures { TermAdded p w t m (ext_words d) result }
{
    if k == 0 {
        return Fraction {
            numerator: Ext { c0: m, ..Ext::ZERO },
            denominator: d,
        };
    }
    Fraction {
        numerator: extension::add(
            p,
            extension::mul(p, w, t.numerator, d),
            extension::scale(p, m, t.denominator),
        ),
        denominator: extension::mul(p, w, t.denominator, d),
    }
}

// An additive lookup.
pub fn compute_combined_sum_terms(
    p: u32,
    w: u32,
    powers: [[u32; 4]; 8],
    alpha: Ext,
    own: &[u32],
    widths: &[u32],
    multiplicities: &[u32],
    nodes: &[u32],
    vals: &[u32],
) -> Fraction
    requires { let c : Place = own_place own.now widths.now multiplicities.now [] nodes.now vals.now (ext_words alpha) (beta_of powers) in FieldValues p w c.vals × Powers p w powers × Word4 p c.alpha × PartsFit c }
    ensures { let c : Place = own_place own.now widths.now multiplicities.now [] nodes.now vals.now (ext_words alpha) (beta_of powers) in FractionIs p (additive_numerator p w c) (additive_denominator p w c) result }
{
    let n = to_usize(types::tuple_count(own, 0));
    let mut t = Fraction {
        numerator: Ext::ZERO,
        denominator: Ext::ONE,
    };
    let mut at = 0;
    for k in 0..n {
        let m = tuple::value(vals, multiplicities[k]);
        let end = at + to_usize(widths[k]);
        let d = tuple::denominator(p, w, powers, alpha, vals, &nodes[at..end]);
        t = add_term(p, w, t, k, m, d);
        at = end;
    }
    t
}

// One branch more: flag · multiplicity, flag · denominator and the flag itself.
fn add_branch(p: u32, t: Branches, f: u32, m: u32, d: Ext) -> Branches
    requires { KnownPrime p × (t.numerator < p) × Word4 p (ext_words t.denominator) × (t.flags < p) × (f < p) × (m < p) × Word4 p (ext_words d) }
    ensures { BranchAdded p t f m (ext_words d) result }
{
    Branches {
        numerator: word::add(p, t.numerator, word::mul(p, f, m)),
        denominator: extension::add(p, t.denominator, extension::scale(p, f, d)),
        flags: word::add(p, t.flags, f),
    }
}

// The branches of an exclusive lookup, summed up.
fn sum_branches(
    p: u32,
    w: u32,
    powers: [[u32; 4]; 8],
    alpha: Ext,
    own: &[u32],
    widths: &[u32],
    multiplicities: &[u32],
    flags: &[u32],
    nodes: &[u32],
    vals: &[u32],
) -> Branches
    requires { let c : Place = own_place own.now widths.now multiplicities.now flags.now nodes.now vals.now (ext_words alpha) (beta_of powers) in FieldValues p w c.vals × Powers p w powers × Word4 p c.alpha × PartsFit c × (tuple_count c.lookups.lookups 0 ≤ length c.lookups.flags) }
    ensures { let c : Place = own_place own.now widths.now multiplicities.now flags.now nodes.now vals.now (ext_words alpha) (beta_of powers) in Summed p w c result (tuple_count c.lookups.lookups 0) }
{
    let n = to_usize(types::tuple_count(own, 0));
    let mut t = Branches {
        numerator: 0,
        denominator: Ext::ZERO,
        flags: 0,
    };
    let mut at = 0;
    for k in 0..n {
        let f = tuple::value(vals, flags[k]);
        let m = tuple::value(vals, multiplicities[k]);
        let end = at + to_usize(widths[k]);
        let d = tuple::denominator(p, w, powers, alpha, vals, &nodes[at..end]);
        t = add_branch(p, t, f, m, d);
        at = end;
    }
    t
}

// An exclusive lookup: N = Σ flag · multiplicity, D = Σ flag · denominator + (1 - Σ flag).
pub fn compute_exclusive_terms(
    p: u32,
    w: u32,
    powers: [[u32; 4]; 8],
    alpha: Ext,
    own: &[u32],
    widths: &[u32],
    multiplicities: &[u32],
    flags: &[u32],
    nodes: &[u32],
    vals: &[u32],
) -> Fraction
    requires { let c : Place = own_place own.now widths.now multiplicities.now flags.now nodes.now vals.now (ext_words alpha) (beta_of powers) in FieldValues p w c.vals × Powers p w powers × Word4 p c.alpha × PartsFit c × (tuple_count c.lookups.lookups 0 ≤ length c.lookups.flags) }
    ensures { let c : Place = own_place own.now widths.now multiplicities.now flags.now nodes.now vals.now (ext_words alpha) (beta_of powers) in FractionIs p (exclusive_numerator p w c) (exclusive_denominator p w c) result }
{
    let t = sum_branches(
        p,
        w,
        powers,
        alpha,
        own,
        widths,
        multiplicities,
        flags,
        nodes,
        vals,
    );
    let flags_sum = Ext {
        c0: t.flags,
        ..Ext::ZERO
    };
    Fraction {
        numerator: Ext {
            c0: t.numerator,
            ..Ext::ZERO
        },
        denominator: extension::add(p, t.denominator, extension::sub(p, Ext::ONE, flags_sum)),
    }
}

// The numerator and the common denominator of a lookup by its own parts.
fn compute_terms(
    p: u32,
    w: u32,
    powers: [[u32; 4]; 8],
    alpha: Ext,
    own: &[u32],
    widths: &[u32],
    multiplicities: &[u32],
    flags: &[u32],
    nodes: &[u32],
    vals: &[u32],
) -> Fraction
    requires { let c : Place = own_place own.now widths.now multiplicities.now flags.now nodes.now vals.now (ext_words alpha) (beta_of powers) in FieldValues p w c.vals × Powers p w powers × Word4 p c.alpha × PartsFit c
        × (length c.lookups.flags ≡ cond (exclusive c.lookups.lookups 0) (tuple_count c.lookups.lookups 0) 0) }
    ensures { let c : Place = own_place own.now widths.now multiplicities.now flags.now nodes.now vals.now (ext_words alpha) (beta_of powers) in LookupFraction p w c result }
{
    if types::exclusive(own, 0) {
        return compute_exclusive_terms(
            p,
            w,
            powers,
            alpha,
            own,
            widths,
            multiplicities,
            flags,
            nodes,
            vals,
        );
    }
    compute_combined_sum_terms(
        p,
        w,
        powers,
        alpha,
        own,
        widths,
        multiplicities,
        nodes,
        vals,
    )
}

// A lookup by its own parts: common denominator × fraction - numerator.
pub fn lookup_constraint(
    p: u32,
    w: u32,
    powers: [[u32; 4]; 8],
    alpha: Ext,
    own: &[u32],
    widths: &[u32],
    multiplicities: &[u32],
    flags: &[u32],
    nodes: &[u32],
    vals: &[u32],
    cell: Ext,
) -> Ext
    requires { let c : Place = own_place own.now widths.now multiplicities.now flags.now nodes.now vals.now (ext_words alpha) (beta_of powers) in FieldValues p w c.vals × Powers p w powers × Word4 p c.alpha × PartsFit c
        × (length c.lookups.flags ≡ cond (exclusive c.lookups.lookups 0) (tuple_count c.lookups.lookups 0) 0) × Word4 p (ext_words cell) }
    ensures { let c : Place = own_place own.now widths.now multiplicities.now flags.now nodes.now vals.now (ext_words alpha) (beta_of powers) in Word4 p (ext_words result) × (ext_words result ≡ vanishing p w c (ext_words cell)) }
{
    let t = compute_terms(
        p,
        w,
        powers,
        alpha,
        own,
        widths,
        multiplicities,
        flags,
        nodes,
        vals,
    );
    extension::sub(p, extension::mul(p, w, t.denominator, cell), t.numerator)
}
