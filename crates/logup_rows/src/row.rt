// One row of a table: the terms of its lookups' tuples and the first fault.
ghost use Rattle.std.specs.Prelude.{◌≡◌, ◌<◌, ◌+◌, ◌*◌, length, Err};
ghost use Rattle.std.proofs.Math.Option.{some};
ghost use Rattle.expression.specs.Requires.{Below};
ghost use Rattle.lookup.specs.Lookups.{tuple_count};
ghost use Rattle.logup.specs.Rows.{fault_refusal, place};
ghost use Rattle.logup_column.specs.inner.Requires.{ColumnInputs, PartsOf};
ghost use Rattle.logup_column.specs.inner.Source.{RowSource, as_row};
ghost use Rattle.logup_column.specs.inner.Kinds.{fault_number};
ghost use Rattle.logup_column.specs.inner.Results.{LookupTerms};
ghost use Rattle.logup_rows.specs.inner.Terms.{RowTerms};

use expression::refusal::Refusal;
use field::extension;
use logup_column::column::Fault;
use logup_column::starts::{Starts, next_starts};
use logup_column::{column, tuple};
use lookup::table::LentLookups;
use lookup::types::LOOKUP_WORDS;

// The refusal of a fault on a row, at a lookup.
fn refusal_of(fault: Fault, row: usize, lookup: usize) -> Refusal
    ensures { some result ≡ fault_refusal (fault_number (Err fault)) row lookup }
{
    match fault {
        Fault::FlagNotBinary => Refusal::FlagNotBinary(row as u64, lookup as u64),
        Fault::TwoFlags => Refusal::TwoFlags(row as u64, lookup as u64),
        Fault::DenominatorZero => Refusal::DenominatorZero(row as u64, lookup as u64),
    }
}

// Lookup i by its own parts, with its own challenges: the terms of its tuples, and its fault. It only cuts these parts out of the lists; a
// function of its own, so that the loop over the lookups is proved without the bounds of five parts.
fn lookup_terms(
    p: u32,
    w: u32,
    lookups: &LentLookups,
    challenges: &[u32],
    beta_powers: &[u32],
    vals: &[u32],
    i: usize,
    at: Starts,
    end: Starts,
    term_multiplicities: &mut [u32],
    term_denominators: &mut [u32],
) -> Result<(), Fault>
    requires { let s : RowSource = as_row lookups.now challenges.now vals.now in ColumnInputs p w s.lookups s.challenges beta_powers.now
        × Below p s.vals × PartsOf s.lookups i at end
        × (length term_multiplicities.old ≡ tuple_count s.lookups.lookups i) × (length term_denominators.old ≡ 4 * tuple_count s.lookups.lookups i) }
    ensures { let s : RowSource = as_row lookups.now challenges.now vals.now in LookupTerms p w (place p w s.lookups s.challenges (λ _. s.vals) 0 i) (fault_number result) term_multiplicities.new term_denominators.new }
{
    let powers = tuple::load_powers(beta_powers, i);
    let alpha = extension::load(challenges, 2 * i);
    let own = LOOKUP_WORDS * i;
    column::lookup(
        p,
        w,
        powers,
        alpha,
        &lookups.records[own..own + LOOKUP_WORDS],
        &lookups.tuples[at.tuple..end.tuple],
        &lookups.multiplicities[at.multiplicity..end.multiplicity],
        &lookups.flags[at.flag..end.flag],
        &lookups.elements[at.element..end.element],
        vals,
        term_multiplicities,
        term_denominators,
    )
}

// The terms of row r, whose node values are `vals`, and its first fault.
pub fn write_row_terms(
    p: u32,
    w: u32,
    lookups: &LentLookups,
    challenges: &[u32],
    beta_powers: &[u32],
    vals: &[u32],
    r: usize,
    term_multiplicities: &mut [u32],
    term_denominators: &mut [u32],
) -> Result<(), Refusal>
    requires { let s : RowSource = as_row lookups.now challenges.now vals.now in ColumnInputs p w s.lookups s.challenges beta_powers.now
        × Below p s.vals × (length term_multiplicities.old ≡ length s.lookups.tuples) × (length term_denominators.old ≡ 4 * length s.lookups.tuples) }
    ensures { let s : RowSource = as_row lookups.now challenges.now vals.now in RowTerms p w s.lookups s.challenges (λ _. s.vals) r result term_multiplicities.new term_denominators.new }
{
    let n = lookups.records.len() / LOOKUP_WORDS;
    let mut verdict = Ok(());
    let mut at = Starts {
        tuple: 0,
        multiplicity: 0,
        flag: 0,
        element: 0,
    };
    for i in 0..n {
        let end = next_starts(lookups, i, at);
        let found = lookup_terms(
            p,
            w,
            lookups,
            challenges,
            beta_powers,
            vals,
            i,
            at,
            end,
            &mut term_multiplicities[at.tuple..end.tuple],
            &mut term_denominators[4 * at.tuple..4 * end.tuple],
        );
        // Most rows have no fault, and then the verdict is left where it is.
        if let Err(fault) = found {
            verdict = verdict.and(Err(refusal_of(fault, r, i)));
        }
        at = end;
    }
    verdict
}
