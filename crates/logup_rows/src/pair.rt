// Two rows of a table, one after the other: their terms and the first fault.
ghost use Rattle.std.specs.Prelude.{◌≡◌, List, ℕ, ◌<◌, ◌≤◌, ◌+◌, ◌*◌, length};
ghost use Rattle.lists.specs.Count.{or_else, first};
ghost use Rattle.expression.specs.Requires.{Below};
ghost use Rattle.expression.specs.Refusal.{refusal};
ghost use Rattle.logup.specs.Rows.{row_fault};
ghost use Rattle.logup_column.specs.inner.Requires.{ColumnInputs};
ghost use Rattle.logup_column.specs.inner.Source.{RowSource, as_row};
ghost use Rattle.logup_rows.specs.inner.Terms.{RunTerms};

use crate::row::write_row_terms;
use expression::refusal::Refusal;
use lookup::table::LentLookups;

// The terms of n rows from row r on, one or two, and their first fault; `vals` and `next_vals` are their node values. A function of its own
// for the compiler's sake: it puts a function with one call into its caller, and all loops in one have too few registers; with a call for
// each of the two rows the loop over a row's lookups stays apart.
pub fn write_pair(
    p: u32,
    w: u32,
    lookups: &LentLookups,
    challenges: &[u32],
    beta_powers: &[u32],
    vals: &[u32],
    next_vals: &[u32],
    r: usize,
    n: usize,
    term_multiplicities: &mut [u32],
    term_denominators: &mut [u32],
) -> Result<(), Refusal>
    requires { let s : RowSource = as_row lookups.now challenges.now vals.now in ColumnInputs p w s.lookups s.challenges beta_powers.now
        × Below p s.vals × Below p next_vals.now × (r < 1048576) × (0 < n) × (n ≤ 2)
        × (length term_multiplicities.old ≡ n * length s.lookups.tuples) × (length term_denominators.old ≡ 4 * (n * length s.lookups.tuples)) }
    ensures { let s : RowSource = as_row lookups.now challenges.now vals.now in (values : ℕ → List ℕ) → values r ≡ s.vals → (1 < n → values (r + 1) ≡ next_vals.now)
        → (or_else (first (row_fault p w s.lookups s.challenges values) r) (refusal result) ≡ first (row_fault p w s.lookups s.challenges values) (r + n))
        × RunTerms p w s.lookups s.challenges values r n term_multiplicities.new term_denominators.new }
{
    let size = lookups.tuples.len();
    let fault = write_row_terms(
        p,
        w,
        lookups,
        challenges,
        beta_powers,
        vals,
        r,
        &mut term_multiplicities[0..size],
        &mut term_denominators[0..4 * size],
    );
    if n < 2 {
        return fault;
    }
    let end = size + size;
    let other = write_row_terms(
        p,
        w,
        lookups,
        challenges,
        beta_powers,
        next_vals,
        r + 1,
        &mut term_multiplicities[size..end],
        &mut term_denominators[4 * size..4 * end],
    );
    fault.and(other)
}
