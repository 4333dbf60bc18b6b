// `LogUpGadget::generate_permutation`: the tests of the entry point, the rows, and the row reader.
ghost use Rattle.std.specs.Prelude.{◌≡◌, List, ℕ, ◌≤◌, ◌*◌, length};
ghost use Rattle.std.proofs.Math.Option.{none};
ghost use Rattle.field.specs.Ext.{ext_words};
ghost use Rattle.expression.specs.Requires.{Below, Evaluable};
ghost use Rattle.expression.specs.Limits.{Sane};
ghost use Rattle.expression.specs.Refusal.{refusal};
ghost use Rattle.expression.specs.declared.sizes.Limits as Declared;
ghost use Rattle.lookup.specs.Lookups.{lookup_count};
ghost use Rattle.lookup.specs.Table.{Table, as_table};
ghost use Rattle.logup.specs.Rule.{table_under};
ghost use Rattle.logup.specs.Rows.{used};
ghost use Rattle.logup.specs.Generation.{answer_of, generation, generation_at};
ghost use Rattle.logup.specs.Reader.{IsRowOf};
ghost use Rattle.logup_column.specs.inner.Requires.{Listed, Field};
ghost use Rattle.logup_column.specs.inner.Source.{Source, as_source, source_under};
ghost use Rattle.logup_generation.specs.inner.Refusals.{trace_tests, entry_tests, EntryPassed};
ghost use Rattle.logup_generation.specs.inner.Outcome.{rows_answer, cleared, rows_result};

use expression::choices::{Choices, known, known_rule, limits_of};
use expression::refusal::Refusal;
use expression::sizes::{Limits, Shape};
use expression::words::{all_below, clear};
use field::modulus::{prime_of, w_of};
use logup_column::rule::write_elements;
use logup_column::{powers, refusals};
use logup_rows::block::Progress;
use logup_rows::trace::all_rows;
use lookup::table::{LentLookups, LentTable};
use lookup::tests;
use lookup::types::{LOOKUP_WORDS, LookupTerminal};

// How many words the used part of the trace has.
fn used_words(shape: Shape, lookups: &[u32]) -> usize
    requires { (shape.height ≤ 1048576) × (lookup_count lookups.now ≤ 64) }
    ensures { result ≡ used lookups.now shape.height }
{
    shape.height * (lookups.len() / LOOKUP_WORDS + 1) * 4
}

// The first of refusals 8 to 10.
fn trace_refusal(
    shape: Shape,
    lookups: &[u32],
    challenges: &[u32],
    trace_len: usize,
) -> Result<(), Refusal>
    requires { (shape.height ≤ 1048576) × (lookup_count lookups.now ≤ 64) }
    ensures { refusal result ≡ trace_tests shape lookups.now (length challenges.now) trace_len }
{
    let some = tests::has_lookups(lookups);
    if some & (challenges.len() / 4 != 2 * (lookups.len() / LOOKUP_WORDS)) {
        return Err(Refusal::ChallengesMissing);
    }
    if !tests::rows_enough(shape, lookups) {
        return Err(Refusal::RowsMissing);
    }
    if some & (trace_len < used_words(shape, lookups)) {
        return Err(Refusal::TraceTooSmall);
    }
    Ok(())
}

// The answer after the rows; after a fault the used part becomes zero.
fn finish(
    progress: Progress,
    used: usize,
    trace: &mut [u32],
) -> Result<Option<LookupTerminal>, Refusal>
    requires { used ≤ length trace.old }
    ensures { (answer_of result ≡ rows_answer (refusal progress.verdict) (ext_words progress.accumulator)) × (trace.new ≡ cleared (refusal progress.verdict) used trace.old) }
{
    match progress.verdict {
        Ok(()) => Ok(Some(LookupTerminal(progress.accumulator))),
        Err(f) => {
            clear(&mut trace[0..used]);
            Err(f)
        }
    }
}

// The rows of a table that passed the tests.
fn generate_rows(
    p: u32,
    w: u32,
    rule: u32,
    table: &LentTable,
    challenges: &[u32],
    trace: &mut [u32],
) -> Result<Option<LookupTerminal>, Refusal>
    requires { let s : Source = as_source table.now challenges.now in Field p w × Listed s.lookups
        × Evaluable p s.traces s.nodes × Below p s.challenges × (8 * lookup_count s.lookups.lookups ≤ length s.challenges)
        × (table.now.traces.shape.height ≤ 1048576) × (lookup_count s.lookups.lookups ≤ 64) × (length s.lookups.tuples ≤ 64) × (used s.lookups.lookups table.now.traces.shape.height ≤ length trace.old) }
    ensures { let s : Source = as_source table.now challenges.now in (m : Declared.Limits) (names : List ℕ) → (answer_of result ≡ (rows_result m p w (source_under rule s) names trace.old).answer)
        × (trace.new ≡ (rows_result m p w (source_under rule s) names trace.old).buffer) }
{
    let n = table.lookups.records.len() / LOOKUP_WORDS;
    // The powers of 64 betas.
    let mut beta_powers = [0u32; 2048];
    powers::write_table(p, w, challenges, n, &mut beta_powers);
    // The elements of 64 tuples of 8.
    let mut ordered = [0u32; 512];
    write_elements(
        rule,
        table.lookups.tuples,
        table.lookups.elements,
        &mut ordered,
    );
    let progress = all_rows(
        p,
        w,
        &LentTable {
            lookups: LentLookups {
                elements: &ordered[0..table.lookups.elements.len()],
                ..table.lookups
            },
            ..*table
        },
        challenges,
        &beta_powers,
        trace,
    );
    finish(
        progress,
        used_words(table.traces.shape, table.lookups.records),
        trace,
    )
}

// The first of refusals 1 to 5, 8, 9 and 10; the trace has `trace_len` words.
fn entry_refusal(
    limits: Limits,
    p: u32,
    table: &LentTable,
    challenges: &[u32],
    trace_len: usize,
) -> Result<(), Refusal>
    requires { Sane limits }
    ensures { let t : Table = as_table table.now in (refusal result ≡ entry_tests limits p t challenges.now trace_len) × (refusal result ≡ none → EntryPassed limits p t challenges.now trace_len) }
{
    refusals::table_refusal(
        limits,
        p,
        table,
        challenges.len() % 4 == 0,
        all_below(p, challenges),
    )?;
    trace_refusal(
        table.traces.shape,
        table.lookups.records,
        challenges,
        trace_len,
    )
}

// Generation for any limits and field that the code takes, and any rule number: all but 2 are taken as 1.
pub fn generate_permutation(
    limits: Limits,
    p: u32,
    w: u32,
    rule: u32,
    table: &LentTable,
    challenges: &[u32],
    trace: &mut [u32],
) -> Result<Option<LookupTerminal>, Refusal>
    requires { Sane limits × Field p w }
    ensures { let t : Table = as_table table.now in (answer_of result ≡ (generation limits p w (table_under rule t) challenges.now trace.old).answer)
        × (trace.new ≡ (generation limits p w (table_under rule t) challenges.now trace.old).buffer) }
{
    entry_refusal(limits, p, table, challenges, trace.len())?;
    if !tests::has_lookups(table.lookups.records) {
        return Ok(None);
    }
    generate_rows(p, w, rule, table, challenges, trace)
}

// `LogUpGadget::generate_permutation`, at the choices of the call.
pub fn generate(
    choices: Choices,
    rule: u32,
    table: &LentTable,
    challenges: &[u32],
    trace: &mut [u32],
) -> Result<Option<LookupTerminal>, Refusal>
    ensures { record { answer = answer_of result; buffer = trace.new }
        ≡ generation_at choices rule (as_table table.now) challenges.now trace.old }
{
    if !(known(choices) & known_rule(rule)) {
        return Err(Refusal::SizeAtOdds);
    }
    generate_permutation(
        limits_of(choices.profile),
        prime_of(choices.field),
        w_of(choices.field),
        rule,
        table,
        challenges,
        trace,
    )
}

// Row r of a trace of so many lookups and rows: the part of it with the accumulator and the fractions, or an empty part.
pub fn row(trace: &[u32], lookups: usize, height: usize, r: u64) -> &[u32]
    ensures { IsRowOf trace.entry lookups height r result }
{
    if (lookups == 0) | (trace.len() / 4 <= lookups) | ((height as u64) <= r) {
        return &trace[0..0];
    }
    let width = (lookups + 1) * 4;
    if ((trace.len() / width) as u64) <= r {
        return &trace[0..0];
    }
    let start = (r as usize) * width;
    &trace[start..start + width]
}
