// `eval_all`: the constraints over a whole trace.
ghost use Rattle.std.specs.Prelude.{◌≡◌, List, ℕ, ◌≤◌, ◌*◌, eqb, length};
ghost use Rattle.std.proofs.Math.Option.{none};
ghost use Rattle.field.specs.Element.{Word4};
ghost use Rattle.field.specs.Ext.{ext_words};
ghost use Rattle.expression.specs.Limits.{Sane};
ghost use Rattle.expression.specs.Refusal.{refusal, numbers};
ghost use Rattle.expression.specs.Requires.{Below, Evaluable};
ghost use Rattle.lookup.specs.Lookups.{lookup_count};
ghost use Rattle.lookup.specs.Table.{Table, as_table};
ghost use Rattle.logup.specs.Rule.{lookups_under, table_under};
ghost use Rattle.logup.specs.Constraints.{present_below, rows_verdict, verdict, verdict_at};
ghost use Rattle.logup_column.specs.inner.Requires.{Listed, Field};
ghost use Rattle.logup_column.specs.inner.Source.{Source, as_source, node_values, named};
ghost use Rattle.logup_terms.specs.inner.ConstraintRow.{TraceInputs};
ghost use Rattle.logup_constraints.specs.Refusals.{terminal_of};
ghost use Rattle.logup_constraints.specs.inner.Refusals.{trace_tests, entry_tests, EntryPassed};

use expression::choices::{Choices, known, known_rule, limits_of};
use expression::refusal::Refusal;
use expression::sizes::{Limits, Shape};
use expression::words::all_below;
use field::modulus::{prime_of, w_of};
use logup_column::rule::write_elements;
use logup_column::{powers, refusals};
use logup_terms::eval_row;
use lookup::table::{LentLookups, LentTable};
use lookup::tests;
use lookup::types::{LOOKUP_WORDS, LookupTerminal};

fn terminal_below(p: u32, terminal: Option<LookupTerminal>) -> bool
    ensures { result ≡ present_below p (terminal_of terminal) }
{
    match terminal {
        None => true,
        Some(LookupTerminal(e)) => (e.c0 < p) & (e.c1 < p) & (e.c2 < p) & (e.c3 < p),
    }
}

// A trace of so many words has the width and the rows that are said. No product is taken, since no limit holds for the width.
fn trace_fits(height: usize, width: usize, len: usize) -> bool
    ensures { result ≡ eqb len (width * height * 4) }
{
    if height == 0 {
        return len == 0;
    }
    (len % 4 == 0) & (len / 4 % height == 0) & (len / 4 / height == width)
}

// The first of refusals 8 to 11, for so many challenge words.
fn trace_refusal(
    shape: Shape,
    lookups: &[u32],
    challenges: usize,
    width: usize,
    present: bool,
) -> Result<(), Refusal>
    requires { lookup_count lookups.now ≤ 64 }
    ensures { refusal result ≡ trace_tests shape lookups.now challenges width present }
{
    let some = tests::has_lookups(lookups);
    let n = lookups.len() / LOOKUP_WORDS;
    if some & (challenges / 4 < 2 * n) {
        return Err(Refusal::ChallengesMissing);
    }
    if !tests::rows_enough(shape, lookups) {
        return Err(Refusal::RowsMissing);
    }
    if some & (width <= n) {
        return Err(Refusal::TraceTooSmall);
    }
    if some != present {
        return Err(Refusal::TerminalMisplaced);
    }
    Ok(())
}

// The first of refusals 1 to 5 and 8 to 11.
fn entry_refusal(
    limits: Limits,
    p: u32,
    table: &LentTable,
    challenges: &[u32],
    width: usize,
    words: &[u32],
    terminal: Option<LookupTerminal>,
) -> Result<(), Refusal>
    requires { Sane limits }
    ensures { let t : Table = as_table table.now in (refusal result ≡ entry_tests limits p t challenges.now width words.now (terminal_of terminal))
        × (refusal result ≡ none → EntryPassed limits p t challenges.now width words.now (terminal_of terminal)) }
{
    let fit = (challenges.len() % 4 == 0)
        & trace_fits(table.traces.shape.height, width, words.len());
    let low = all_below(p, challenges) & (all_below(p, words) & terminal_below(p, terminal));
    refusals::table_refusal(limits, p, table, fit, low)?;
    trace_refusal(
        table.traces.shape,
        table.lookups.records,
        challenges.len(),
        width,
        terminal.is_some(),
    )
}

// The rows of a trace that passed the tests, with beta's powers computed and the elements put in order once.
fn rows_verdict(
    p: u32,
    w: u32,
    rule: u32,
    table: &LentTable,
    challenges: &[u32],
    width: usize,
    words: &[u32],
    terminal: LookupTerminal,
) -> Result<(), Refusal>
    requires { let s : Source = as_source table.now challenges.now in Field p w × Listed s.lookups
        × Evaluable p s.traces s.nodes × Below p s.challenges × (8 * lookup_count s.lookups.lookups ≤ length s.challenges) × (lookup_count s.lookups.lookups ≤ 64)
        × (length s.lookups.tuples ≤ 64) × TraceInputs p table.now.traces.shape.height width (lookup_count s.lookups.lookups) words.now × Word4 p (ext_words terminal.0) }
    ensures { let s : Source = as_source table.now challenges.now in (names : List ℕ) → refusal result ≡ rows_verdict p w (named (lookups_under rule s.lookups) names) s.challenges (node_values p s) width words.now (ext_words terminal.0) table.now.traces.shape.height }
{
    let n = table.lookups.records.len() / LOOKUP_WORDS;
    // The powers of 64 betas.
    let mut beta_powers = [0u32; 2048];
    powers::write_table(p, w, challenges, n, &mut beta_powers);
    // The elements of 64 tuples of 8.
    let mut ordered = [0u32; 512];
    write_elements(
        rule,
        table.lookups.tuples,
        table.lookups.elements,
        &mut ordered,
    );
    eval_row::eval_rows(
        p,
        w,
        &LentTable {
            lookups: LentLookups {
                elements: &ordered[0..table.lookups.elements.len()],
                ..table.lookups
            },
            ..*table
        },
        challenges,
        &beta_powers,
        width,
        words,
        terminal,
    )
}

// The constraints for any limits and field that the code takes, and any rule number: all but 2 are taken as 1.
pub fn eval_trace(
    limits: Limits,
    p: u32,
    w: u32,
    rule: u32,
    table: &LentTable,
    challenges: &[u32],
    width: usize,
    words: &[u32],
    terminal: Option<LookupTerminal>,
) -> Result<(), Refusal>
    requires { Sane limits × Field p w }
    ensures { refusal result ≡ verdict limits p w (table_under rule (as_table table.now)) challenges.now width words.now (terminal_of terminal) }
{
    entry_refusal(limits, p, table, challenges, width, words, terminal)?;
    let Some(t) = terminal else {
        return Ok(());
    };
    rows_verdict(p, w, rule, table, challenges, width, words, t)
}

// `eval_all` over a whole trace, at the choices of the call.
pub fn eval_all(
    choices: Choices,
    rule: u32,
    table: &LentTable,
    challenges: &[u32],
    width: usize,
    words: &[u32],
    terminal: Option<LookupTerminal>,
) -> Result<(), Refusal>
    ensures { numbers (refusal result) ≡ numbers (verdict_at choices rule (as_table table.now) challenges.now width words.now (terminal_of terminal)) }
{
    if !(known(choices) & known_rule(rule)) {
        return Err(Refusal::SizeAtOdds);
    }
    eval_trace(
        limits_of(choices.profile),
        prime_of(choices.field),
        w_of(choices.field),
        rule,
        table,
        challenges,
        width,
        words,
        terminal,
    )
}
