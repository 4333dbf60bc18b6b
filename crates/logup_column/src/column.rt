// A lookup on one row: the terms of its tuples in its fraction, and its fault.
ghost use Rattle.std.specs.Prelude.{◌≡◌, cond, [], map, ◌≤◌, ◌*◌, length};
ghost use Rattle.field.specs.Element.{Word4};
ghost use Rattle.field.specs.Ext.{ext_words};
ghost use Rattle.expression.specs.Words.{word};
ghost use Rattle.lookup.specs.Lookups.{tuple_count, exclusive, element_start};
ghost use Rattle.logup.specs.Tuple.{denominator};
ghost use Rattle.logup.specs.Column.{Place};
ghost use Rattle.logup_column.specs.inner.Powers.{beta_of, Powers};
ghost use Rattle.logup_column.specs.inner.Own.{own_place, FieldValues, faults};
ghost use Rattle.logup_column.specs.inner.Kinds.{is_exclusive, branch_of, fault_number};
ghost use Rattle.logup_column.specs.inner.Terms.{contributes_nothing};
ghost use Rattle.logup_column.specs.inner.Results.{PartsFit, FlagsRead, IsTerm, TermsWritten, LookupTerms};

use crate::tuple;
use field::extension;
use field::extension::Ext;
use lookup::types;

// A tuple's term in its lookup's fraction, m ÷ (α - z): its multiplicity and its denominator.
#[derive(Clone, Copy)]
pub struct Term {
    pub multiplicity: u32,
    pub denominator: Ext,
}

// What the flags of a lookup say: whether one is over 1, how many are 1, and which branch is chosen.
#[derive(Clone, Copy)]
pub struct Flags {
    pub over: bool,
    pub ones: usize,
    pub chosen: Option<usize>,
}

// How a lookup's tuples go into its fraction: all of them, or that of the branch chosen alone.
#[derive(Clone, Copy)]
pub enum Kind {
    Additive,
    Exclusive(Option<usize>),
}

// What is wrong with a lookup on a row: refusals 13, 14 and 15.
#[derive(Clone, Copy)]
pub enum Fault {
    FlagNotBinary,
    TwoFlags,
    DenominatorZero,
}

// A tuple's denominator: most tuples have few elements.
fn denominator_of(
    p: u32,
    w: u32,
    powers: [[u32; 4]; 8],
    alpha: Ext,
    vals: &[u32],
    nodes: &[u32],
) -> Ext
    requires { FieldValues p w vals.now × Powers p w powers × Word4 p (ext_words alpha) × (length nodes.now ≤ 8) }
    ensures { Word4 p (ext_words result) × (ext_words result ≡ denominator p w (ext_words alpha) (beta_of powers) (map (word vals.now) nodes.now)) }
{
    if nodes.len() <= 4 {
        return extension::sub(p, alpha, tuple::combine_few(p, w, powers, vals, nodes));
    }
    tuple::denominator(p, w, powers, alpha, vals, nodes)
}

// The term of a tuple with multiplicity m; 0 ÷ 1 where it contributes nothing.
fn term_of(
    p: u32,
    w: u32,
    powers: [[u32; 4]; 8],
    alpha: Ext,
    vals: &[u32],
    nodes: &[u32],
    m: u32,
    nothing: bool,
) -> Term
    requires { FieldValues p w vals.now × Powers p w powers × Word4 p (ext_words alpha) × (length nodes.now ≤ 8) }
    ensures { IsTerm p nothing m (denominator p w (ext_words alpha) (beta_of powers) (map (word vals.now) nodes.now)) result }
{
    if nothing {
        return Term {
            multiplicity: 0,
            denominator: Ext::ONE,
        };
    }
    Term {
        multiplicity: m,
        denominator: denominator_of(p, w, powers, alpha, vals, nodes),
    }
}

// Whether tuple k with multiplicity m contributes nothing.
fn contributes_nothing(kind: Kind, k: usize, m: u32) -> bool
    ensures { result ≡ contributes_nothing (is_exclusive kind) (branch_of kind) k m }
{
    match kind {
        Kind::Additive => m == 0,
        Kind::Exclusive(branch) => branch != Some(k),
    }
}

// The flags of a lookup.
fn read_flags(flags: &[u32], vals: &[u32]) -> Flags
    ensures { FlagsRead (λ k. word vals.now (word flags.now k)) (length flags.now) result }
{
    let mut over = false;
    let mut ones = 0;
    let mut chosen = None;
    for k in 0..flags.len() {
        let f = tuple::value(vals, flags[k]);
        over |= 1 < f;
        ones += usize::from(f == 1);
        chosen = if f == 1 { Some(k) } else { chosen };
    }
    Flags { over, ones, chosen }
}

// Where the nodes of tuple `to` begin, from where those of tuple `from` begin.
pub fn start_of(widths: &[u32], nodes: &[u32], from: usize, start: usize, to: usize) -> usize
    requires { (from ≤ to) × (to ≤ length widths.now) × (element_start widths.now to ≤ length nodes.now) × (start ≡ element_start widths.now from) }
    ensures { result ≡ element_start widths.now to }
{
    let mut at = start;
    for j in from..to {
        at += widths[j] as usize;
    }
    at
}

// The terms of a lookup's tuples, and whether a denominator is 0.
fn write_terms(
    p: u32,
    w: u32,
    powers: [[u32; 4]; 8],
    alpha: Ext,
    own: &[u32],
    widths: &[u32],
    multiplicities: &[u32],
    nodes: &[u32],
    vals: &[u32],
    kind: Kind,
    term_multiplicities: &mut [u32],
    term_denominators: &mut [u32],
) -> bool
    requires { let c : Place = own_place own.now widths.now multiplicities.now [] nodes.now vals.now (ext_words alpha) (beta_of powers) in FieldValues p w c.vals × Powers p w powers × Word4 p c.alpha × PartsFit c
        × (length term_multiplicities.old ≡ tuple_count c.lookups.lookups 0) × (length term_denominators.old ≡ 4 * tuple_count c.lookups.lookups 0) }
    ensures { let c : Place = own_place own.now widths.now multiplicities.now [] nodes.now vals.now (ext_words alpha) (beta_of powers) in TermsWritten p w c (is_exclusive kind) (branch_of kind) (tuple_count c.lookups.lookups 0) result term_multiplicities.new term_denominators.new }
{
    let n = term_multiplicities.len();
    let mut at = 0;
    let mut zero = false;
    for k in 0..n {
        let m = tuple::value(vals, multiplicities[k]);
        let end = at + widths[k] as usize;
        let nothing = contributes_nothing(kind, k, m);
        let t = term_of(p, w, powers, alpha, vals, &nodes[at..end], m, nothing);
        term_multiplicities[k] = t.multiplicity;
        extension::store(&mut term_denominators[4 * k..4 * k + 4], t.denominator);
        zero |= extension::is_zero(t.denominator);
        at = end;
    }
    zero
}

// The first fault of the three.
fn first_fault(over: bool, ones: usize, zero: bool) -> Result<(), Fault>
    ensures { fault_number result ≡ faults over ones zero }
{
    if over {
        return Err(Fault::FlagNotBinary);
    }
    if 1 < ones {
        return Err(Fault::TwoFlags);
    }
    if zero {
        return Err(Fault::DenominatorZero);
    }
    Ok(())
}

// A lookup by its own parts: the terms of its tuples, and its fault.
pub fn lookup(
    p: u32,
    w: u32,
    powers: [[u32; 4]; 8],
    alpha: Ext,
    own: &[u32],
    widths: &[u32],
    multiplicities: &[u32],
    flags: &[u32],
    nodes: &[u32],
    vals: &[u32],
    term_multiplicities: &mut [u32],
    term_denominators: &mut [u32],
) -> Result<(), Fault>
    requires { let c : Place = own_place own.now widths.now multiplicities.now flags.now nodes.now vals.now (ext_words alpha) (beta_of powers) in FieldValues p w c.vals × Powers p w powers × Word4 p c.alpha × PartsFit c
        × (length c.lookups.flags ≡ cond (exclusive c.lookups.lookups 0) (tuple_count c.lookups.lookups 0) 0)
        × (length term_multiplicities.old ≡ tuple_count c.lookups.lookups 0) × (length term_denominators.old ≡ 4 * tuple_count c.lookups.lookups 0) }
    ensures { let c : Place = own_place own.now widths.now multiplicities.now flags.now nodes.now vals.now (ext_words alpha) (beta_of powers) in LookupTerms p w c (fault_number result) term_multiplicities.new term_denominators.new }
{
    // A call for each kind: the compiler keeps a loop that is called twice apart, and that is faster than all loops of a row in one.
    if types::exclusive(own, 0) {
        let f = read_flags(flags, vals);
        let zero = write_terms(
            p,
            w,
            powers,
            alpha,
            own,
            widths,
            multiplicities,
            nodes,
            vals,
            Kind::Exclusive(f.chosen),
            term_multiplicities,
            term_denominators,
        );
        return first_fault(f.over, f.ones, zero);
    }
    let zero = write_terms(
        p,
        w,
        powers,
        alpha,
        own,
        widths,
        multiplicities,
        nodes,
        vals,
        Kind::Additive,
        term_multiplicities,
        term_denominators,
    );
    first_fault(false, 0, zero)
}
