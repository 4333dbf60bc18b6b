// The first of refusals 1 to 5 at an entry point that takes a trace: generation and constraints.
ghost use Rattle.std.specs.Prelude.{◌≡◌, ◌≤◌};
ghost use Rattle.std.proofs.Math.Option.{none};
ghost use Rattle.expression.specs.Limits.{Sane};
ghost use Rattle.expression.specs.Node.{node_count};
ghost use Rattle.expression.specs.Refusal.{refusal};
ghost use Rattle.lookup.specs.Lookups.{as_lookups};
ghost use Rattle.lookup.specs.Table.{as_table};
ghost use Rattle.logup_column.specs.inner.Refusals.{position_refusal, table_tests};

use expression::node::NODE_WORDS;
use expression::refusal::Refusal;
use expression::sizes::Limits;
use lookup::table::{LentLookups, LentTable};
use lookup::{refusals, tests};

// Refusal 5: as at every entry point, and each lookup's column is its position.
fn position_refusal(nodes: &[u32], lookups: &LentLookups) -> Result<(), Refusal>
    requires { node_count nodes.now ≤ 1024 }
    ensures { refusal result ≡ position_refusal (node_count nodes.now) (as_lookups lookups.now) none }
{
    let agree = tests::lists_agree((nodes.len() / NODE_WORDS) as u32, lookups);
    if agree & tests::in_position(lookups.records) {
        Ok(())
    } else {
        Err(Refusal::LookupInvalid)
    }
}

// The first of refusals 1 to 5; `fit` and `low` are what the entry point tests beside the table by 1 and by 2.
pub fn table_refusal(
    limits: Limits,
    p: u32,
    table: &LentTable,
    fit: bool,
    low: bool,
) -> Result<(), Refusal>
    requires { Sane limits }
    ensures { refusal result ≡ table_tests limits p (as_table table.now) fit low none }
{
    if !(refusals::sizes(limits, table) & fit) {
        return Err(Refusal::SizeAtOdds);
    }
    if !(refusals::words_below(p, table) & low) {
        return Err(Refusal::WordTooLarge);
    }
    refusals::nodes_refusal(
        limits,
        table.traces.shape,
        table.traces.public_values.len(),
        table.nodes,
    )?;
    position_refusal(table.nodes, &table.lookups)
}
