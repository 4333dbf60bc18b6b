// The rows of the trace in parts of at most 1,024, each lent from its own start; a part goes block by block.
ghost use Rattle.std.specs.Prelude.{◌≡◌, ◌++◌, ◌<◌, ◌≤◌, ◌+◌, ◌*◌, length, drop};
ghost use Rattle.lists.specs.Count.{joined};
ghost use Rattle.expression.specs.Requires.{Evaluable};
ghost use Rattle.lookup.specs.Lookups.{lookup_count};
ghost use Rattle.logup.specs.Rows.{row_words, trace, used};
ghost use Rattle.logup_column.specs.inner.Requires.{ColumnInputs};
ghost use Rattle.logup_column.specs.inner.Source.{Source, as_source, node_values};
ghost use Rattle.logup_rows.specs.inner.Progress.{Reached};

use crate::block::{Progress, block};
use field::extension::Ext;
use lookup::table::LentTable;
use lookup::types::LOOKUP_WORDS;

// How many rows of so many tuples go in a block: at most 256 tuples.
fn block_rows(tuples: usize) -> usize
    requires { tuples ≤ 64 }
    ensures { (0 < result) × (result * tuples ≤ 256) }
{
    if tuples == 0 { 256 } else { 256 / tuples }
}

// k rows from row `from` on, with the accumulator before them.
pub fn rows(
    p: u32,
    w: u32,
    table: &LentTable,
    challenges: &[u32],
    beta_powers: &[u32],
    from: usize,
    k: usize,
    before: Progress,
    out: &mut [u32],
) -> Progress
    requires { let s : Source = as_source table.now challenges.now in ColumnInputs p w s.lookups s.challenges beta_powers.now × Evaluable p s.traces s.nodes
        × (from + k ≤ s.traces.shape.height) × (s.traces.shape.height ≤ 1048576)
        × (length s.lookups.tuples ≤ 64) × (length out.old ≡ k * (4 * lookup_count s.lookups.lookups + 4))
        × Reached p w s.lookups s.challenges (node_values p s) from before }
    ensures { let s : Source = as_source table.now challenges.now in Reached p w s.lookups s.challenges (node_values p s) (from + k) result
        × (out.new ≡ joined (row_words p w s.lookups s.challenges (node_values p s)) from k) }
{
    let width = 4 * (table.lookups.records.len() / LOOKUP_WORDS) + 4;
    let most = block_rows(table.lookups.tuples.len());
    let mut progress = before;
    let mut at = 0;
    let mut j = 0;
    // The step is not one row: a block goes as far as it can.
    while j < k {
        let n = (k - j).min(most);
        let end = at + n * width;
        progress = block(
            p,
            w,
            table,
            challenges,
            beta_powers,
            from + j,
            n,
            progress,
            &mut out[at..end],
        );
        at = end;
        j += n;
    }
    progress
}

// All rows, part by part.
pub fn all_rows(
    p: u32,
    w: u32,
    table: &LentTable,
    challenges: &[u32],
    beta_powers: &[u32],
    out: &mut [u32],
) -> Progress
    requires { let s : Source = as_source table.now challenges.now in ColumnInputs p w s.lookups s.challenges beta_powers.now × Evaluable p s.traces s.nodes
        × (s.traces.shape.height ≤ 1048576) × (length s.lookups.tuples ≤ 64) × (used s.lookups.lookups s.traces.shape.height ≤ length out.old) }
    ensures { let s : Source = as_source table.now challenges.now in Reached p w s.lookups s.challenges (node_values p s) s.traces.shape.height result
        × (out.new ≡ trace p w s.lookups s.challenges (node_values p s) s.traces.shape.height ++ drop (used s.lookups.lookups s.traces.shape.height) out.old) }
{
    let width = 4 * (table.lookups.records.len() / LOOKUP_WORDS) + 4;
    let mut progress = Progress {
        accumulator: Ext::ZERO,
        verdict: Ok(()),
    };
    let mut at = 0;
    let mut r = 0;
    // The step is not one row: a part has up to 1,024.
    while r < table.traces.shape.height {
        let k = (table.traces.shape.height - r).min(1024);
        let end = at + k * width;
        progress = rows(
            p,
            w,
            table,
            challenges,
            beta_powers,
            r,
            k,
            progress,
            &mut out[at..end],
        );
        at = end;
        r += k;
    }
    progress
}
