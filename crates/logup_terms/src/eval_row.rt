// The constraints of a trace, row by row: those of the lookups, then the accumulator's, and the step's or the terminal's.
ghost use Rattle.std.specs.Prelude.{◌≡◌, cond, List, ℕ, ◌<◌, ◌≤◌, ◌+◌, ◌*◌, eqb, ltb, length};
ghost use Rattle.std.proofs.Math.Option.{none};
ghost use Rattle.field.specs.inner.Requires.{KnownPrime};
ghost use Rattle.field.specs.Element.{Word4};
ghost use Rattle.field.specs.Ext.{ext_words};
ghost use Rattle.expression.specs.Requires.{Below, Evaluable};
ghost use Rattle.expression.specs.Refusal.{refusal};
ghost use Rattle.lookup.specs.Lookups.{lookup_count};
ghost use Rattle.logup.specs.Rows.{place};
ghost use Rattle.logup.specs.Constraints.{must_vanish, row_verdict, rows_verdict};
ghost use Rattle.logup_column.specs.inner.Requires.{ColumnInputs, PartsOf};
ghost use Rattle.logup_column.specs.inner.Source.{Source, as_source, node_values, RowSource, as_row};
ghost use Rattle.logup_terms.specs.inner.Constraint.{vanishing};
ghost use Rattle.logup_terms.specs.inner.ConstraintRow.{next_accumulator, accumulator_verdict, TraceInputs, FractionsEvaluated};

use crate::compute;
use expression::node::NODE_WORDS;
use expression::refusal::Refusal;
use expression::words::clear;
use expression_eval::traits;
use field::extension;
use field::extension::Ext;
use logup_column::starts::{Starts, next_starts};
use logup_column::tuple;
use lookup::table::{LentLookups, LentTable};
use lookup::types::{LOOKUP_WORDS, LookupTerminal};

// Refusal 17 with row and place, unless the value is zero.
fn must_vanish(x: Ext, row: usize, place: usize) -> Result<(), Refusal>
    ensures { refusal result ≡ must_vanish (ext_words x) row place }
{
    if extension::is_zero(x) {
        Ok(())
    } else {
        Err(Refusal::ConstraintNotZero(row as u64, place as u64))
    }
}

// Lookup i's constraint by its own parts, with its own challenges and the fraction that the trace holds. It only cuts these parts out of
// the lists; a function of its own, so that the loop over the lookups is proved without the bounds of five parts.
fn eval_fraction(
    p: u32,
    w: u32,
    lookups: &LentLookups,
    challenges: &[u32],
    beta_powers: &[u32],
    vals: &[u32],
    i: usize,
    at: Starts,
    end: Starts,
    cell: Ext,
) -> Ext
    requires { let s : RowSource = as_row lookups.now challenges.now vals.now in ColumnInputs p w s.lookups s.challenges beta_powers.now
        × Below p s.vals × PartsOf s.lookups i at end × Word4 p (ext_words cell) }
    ensures { let s : RowSource = as_row lookups.now challenges.now vals.now in ext_words result ≡ vanishing p w (place p w s.lookups s.challenges (λ _. s.vals) 0 i) (ext_words cell) }
{
    let powers = tuple::load_powers(beta_powers, i);
    let alpha = extension::load(challenges, 2 * i);
    let own = LOOKUP_WORDS * i;
    compute::lookup_constraint(
        p,
        w,
        powers,
        alpha,
        &lookups.records[own..own + LOOKUP_WORDS],
        &lookups.tuples[at.tuple..end.tuple],
        &lookups.multiplicities[at.multiplicity..end.multiplicity],
        &lookups.flags[at.flag..end.flag],
        &lookups.elements[at.element..end.element],
        vals,
        cell,
    )
}

// The constraints of all lookups on row r: the sum of the row's fractions, or the first refusal.
fn eval_fractions(
    p: u32,
    w: u32,
    lookups: &LentLookups,
    challenges: &[u32],
    beta_powers: &[u32],
    vals: &[u32],
    words: &[u32],
    base: usize,
    r: usize,
) -> Result<Ext, Refusal>
    requires { let s : RowSource = as_row lookups.now challenges.now vals.now in ColumnInputs p w s.lookups s.challenges beta_powers.now
        × Below p s.vals × Below p words.now × (4 * (base + (lookup_count s.lookups.lookups + 1)) ≤ length words.now) }
    ensures { FractionsEvaluated p w (as_row lookups.now challenges.now vals.now) words.now base r result }
{
    let n = lookups.records.len() / LOOKUP_WORDS;
    let mut sum = Ext::ZERO;
    let mut at = Starts {
        tuple: 0,
        multiplicity: 0,
        flag: 0,
        element: 0,
    };
    for i in 0..n {
        let end = next_starts(lookups, i, at);
        let cell = extension::load(words, base + (i + 1));
        let value = eval_fraction(
            p,
            w,
            lookups,
            challenges,
            beta_powers,
            vals,
            i,
            at,
            end,
            cell,
        );
        must_vanish(value, r, i)?;
        sum = extension::add(p, sum, cell);
        at = end;
    }
    Ok(sum)
}

// What the accumulator must become after row r: the next row's, which is element `next`, and on the last row the terminal.
fn next_accumulator(
    p: u32,
    words: &[u32],
    next: usize,
    r: usize,
    height: usize,
    terminal: LookupTerminal,
) -> Ext
    requires { Below p words.now × (r < height) × (r + 1 < height → 4 * next + 4 ≤ length words.now) × Word4 p (ext_words terminal.0) }
    ensures { Word4 p (ext_words result) × (ext_words result ≡ next_accumulator words.now next r height (ext_words terminal.0)) }
{
    if height <= r + 1 {
        return terminal.0;
    }
    extension::load(words, next)
}

// The accumulator is tested on row 0 alone.
fn first_row(accumulator: Ext, r: usize, n: usize) -> Result<(), Refusal>
    ensures { refusal result ≡ cond (eqb r 0) (must_vanish (ext_words accumulator) r n) none }
{
    if r == 0 {
        must_vanish(accumulator, r, n)
    } else {
        Ok(())
    }
}

// The place of the step, or of the terminal on the last row.
fn last_place(n: usize, r: usize, height: usize) -> usize
    requires { (r < height) × (n ≤ 64) }
    ensures { result ≡ cond (ltb (r + 1) height) (n + 1) (n + 2) }
{
    if r + 1 < height { n + 1 } else { n + 2 }
}

// The accumulator and the row's fractions sum up to what the accumulator must become; only here the terminal is taken for an element.
fn eval_accumulator(
    p: u32,
    accumulator: Ext,
    words: &[u32],
    next: usize,
    terminal: LookupTerminal,
    sum: Ext,
    n: usize,
    r: usize,
    height: usize,
) -> Result<(), Refusal>
    requires { KnownPrime p × Word4 p (ext_words accumulator) × Below p words.now × (r + 1 < height → 4 * next + 4 ≤ length words.now)
        × Word4 p (ext_words terminal.0) × Word4 p (ext_words sum) × (r < height) × (n ≤ 64) }
    ensures { refusal result ≡ accumulator_verdict p (ext_words accumulator) (next_accumulator words.now next r height (ext_words terminal.0)) (ext_words sum) n r height }
{
    let due = next_accumulator(p, words, next, r, height, terminal);
    let rest = extension::sub(p, extension::sub(p, due, accumulator), sum);
    first_row(accumulator, r, n)?;
    must_vanish(rest, r, last_place(n, r, height))
}

// The constraints of row r, whose first element is number `base`; `vals` are its node values.
fn eval_row(
    p: u32,
    w: u32,
    lookups: &LentLookups,
    challenges: &[u32],
    beta_powers: &[u32],
    vals: &[u32],
    width: usize,
    words: &[u32],
    terminal: LookupTerminal,
    base: usize,
    r: usize,
    height: usize,
) -> Result<(), Refusal>
    requires { let s : RowSource = as_row lookups.now challenges.now vals.now in ColumnInputs p w s.lookups s.challenges beta_powers.now
        × Below p s.vals × TraceInputs p height width (lookup_count s.lookups.lookups) words.now × Word4 p (ext_words terminal.0)
        × (r < height) × (base ≡ r * width) × (lookup_count s.lookups.lookups ≤ 64) }
    ensures { let s : RowSource = as_row lookups.now challenges.now vals.now in (values : ℕ → List ℕ) → values r ≡ s.vals
        → refusal result ≡ row_verdict p w s.lookups s.challenges values width words.now (ext_words terminal.0) height r }
{
    let sum = eval_fractions(p, w, lookups, challenges, beta_powers, vals, words, base, r)?;
    let accumulator = extension::load(words, base);
    let n = lookups.records.len() / LOOKUP_WORDS;
    eval_accumulator(
        p,
        accumulator,
        words,
        base + width,
        terminal,
        sum,
        n,
        r,
        height,
    )
}

// All rows; the first that refuses ends the run.
pub fn eval_rows(
    p: u32,
    w: u32,
    table: &LentTable,
    challenges: &[u32],
    beta_powers: &[u32],
    width: usize,
    words: &[u32],
    terminal: LookupTerminal,
) -> Result<(), Refusal>
    requires { let s : Source = as_source table.now challenges.now in ColumnInputs p w s.lookups s.challenges beta_powers.now × Evaluable p s.traces s.nodes
        × TraceInputs p s.traces.shape.height width (lookup_count s.lookups.lookups) words.now × Word4 p (ext_words terminal.0)
        × (lookup_count s.lookups.lookups ≤ 64) }
    ensures { let s : Source = as_source table.now challenges.now in refusal result ≡ rows_verdict p w s.lookups s.challenges (node_values p s) width words.now (ext_words terminal.0) s.traces.shape.height }
{
    let height = table.traces.shape.height;
    let count = table.nodes.len() / NODE_WORDS;
    let mut vals = [0u32; 1024];
    let mut base = 0;
    for r in 0..height {
        traits::row_values(p, &table.traces, table.nodes, r, &mut vals);
        eval_row(
            p,
            w,
            &table.lookups,
            challenges,
            beta_powers,
            &vals[0..count],
            width,
            words,
            terminal,
            base,
            r,
            height,
        )?;
        // Zero at the start of every row: only the values that the nodes filled need it.
        clear(&mut vals[0..count]);
        base += width;
    }
    Ok(())
}
