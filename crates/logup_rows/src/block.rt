// A block of rows: their terms into local arrays, all quotients with one inverse, then the rows of the trace.
ghost use Rattle.std.specs.Prelude.{◌≡◌, ◌≤◌, ◌+◌, ◌*◌, length};
ghost use Rattle.lists.specs.Count.{first, joined};
ghost use Rattle.expression.specs.Requires.{Evaluable};
ghost use Rattle.expression.specs.Refusal.{refusal};
ghost use Rattle.lookup.specs.Lookups.{lookup_count};
ghost use Rattle.logup.specs.Rows.{row_words, row_fault};
ghost use Rattle.logup_column.specs.inner.Requires.{ColumnInputs};
ghost use Rattle.logup_column.specs.inner.Source.{Source, as_source, node_values};
ghost use Rattle.logup_rows.specs.inner.Terms.{RunTerms};
ghost use Rattle.logup_rows.specs.inner.Progress.{Reached};

use crate::pair::write_pair;
use crate::writing::write_rows;
use expression::node::NODE_WORDS;
use expression::refusal::Refusal;
use expression::words::clear;
use expression_eval::traits::pair_values;
use field::extension::Ext;
use field_batch::division::divide_all;
use lookup::table::LentTable;

// The accumulator after a run of rows, and the first fault so far.
#[derive(Clone, Copy)]
pub struct Progress {
    pub accumulator: Ext,
    pub verdict: Result<(), Refusal>,
}

// The terms of k rows from row `from` on, two rows at a time, and the first fault so far.
fn fill(
    p: u32,
    w: u32,
    table: &LentTable,
    challenges: &[u32],
    beta_powers: &[u32],
    from: usize,
    k: usize,
    before: Result<(), Refusal>,
    term_multiplicities: &mut [u32],
    term_denominators: &mut [u32],
) -> Result<(), Refusal>
    requires { let s : Source = as_source table.now challenges.now in ColumnInputs p w s.lookups s.challenges beta_powers.now × Evaluable p s.traces s.nodes
        × (from + k ≤ s.traces.shape.height) × (s.traces.shape.height ≤ 1048576)
        × (refusal before ≡ first (row_fault p w s.lookups s.challenges (node_values p s)) from)
        × (length term_multiplicities.old ≡ k * length s.lookups.tuples) × (length term_denominators.old ≡ 4 * (k * length s.lookups.tuples)) }
    ensures { let s : Source = as_source table.now challenges.now in (refusal result ≡ first (row_fault p w s.lookups s.challenges (node_values p s)) (from + k))
        × RunTerms p w s.lookups s.challenges (node_values p s) from k term_multiplicities.new term_denominators.new }
{
    let size = table.lookups.tuples.len();
    let count = table.nodes.len() / NODE_WORDS;
    let mut vals = [0u32; 1024];
    let mut next_vals = [0u32; 1024];
    let mut verdict = before;
    let mut at = 0;
    let mut j = 0;
    // The step is two rows, and one at the last where k is odd.
    while j < k {
        let n = (k - j).min(2);
        let end = at + n * size;
        let r = from + j;
        pair_values(p, &table.traces, table.nodes, r, &mut vals, &mut next_vals);
        let fault = write_pair(
            p,
            w,
            &table.lookups,
            challenges,
            beta_powers,
            &vals[0..count],
            &next_vals[0..count],
            r,
            n,
            &mut term_multiplicities[at..end],
            &mut term_denominators[4 * at..4 * end],
        );
        // Zero at the start of every row: only the values that the nodes filled need it.
        clear(&mut vals[0..count]);
        clear(&mut next_vals[0..count]);
        // Most rows have no fault, and then the verdict is left where it is.
        if fault.is_err() {
            verdict = verdict.and(fault);
        }
        at = end;
        j += n;
    }
    verdict
}

// k rows from row `from` on, with the accumulator before them. They have at most 256 tuples in all.
pub fn block(
    p: u32,
    w: u32,
    table: &LentTable,
    challenges: &[u32],
    beta_powers: &[u32],
    from: usize,
    k: usize,
    before: Progress,
    out: &mut [u32],
) -> Progress
    requires { let s : Source = as_source table.now challenges.now in ColumnInputs p w s.lookups s.challenges beta_powers.now × Evaluable p s.traces s.nodes
        × (from + k ≤ s.traces.shape.height) × (s.traces.shape.height ≤ 1048576)
        × (length out.old ≡ k * (4 * lookup_count s.lookups.lookups + 4)) × Reached p w s.lookups s.challenges (node_values p s) from before
        × (k * length s.lookups.tuples ≤ 256) }
    ensures { let s : Source = as_source table.now challenges.now in Reached p w s.lookups s.challenges (node_values p s) (from + k) result
        × (out.new ≡ joined (row_words p w s.lookups s.challenges (node_values p s)) from k) }
{
    let size = table.lookups.tuples.len();
    let count = k * size;
    let mut term_multiplicities = [0u32; 256];
    let mut term_denominators = [0u32; 1024];
    let verdict = fill(
        p,
        w,
        table,
        challenges,
        beta_powers,
        from,
        k,
        before.verdict,
        &mut term_multiplicities[0..count],
        &mut term_denominators[0..4 * count],
    );
    // The quotients take the place of the denominators.
    divide_all(
        p,
        w,
        &term_multiplicities[0..count],
        &mut term_denominators[0..4 * count],
    );
    let accumulator = write_rows(
        p,
        table.lookups.records,
        &term_denominators[0..4 * count],
        size,
        k,
        before.accumulator,
        out,
    );
    Progress {
        accumulator,
        verdict,
    }
}
