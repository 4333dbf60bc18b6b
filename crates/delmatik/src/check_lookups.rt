// Balance for callers that hold words.
ghost use Rattle.std.specs.Prelude.{◌≡◌};
ghost use Rattle.expression.specs.Choices.{choices_of};
ghost use Rattle.balance.specs.Balance.{check_at};
ghost use Rattle.balance.specs.Tables.{lent_tables};
ghost use Rattle.delmatik.specs.Exports.{exported_balance};

use balance::tables::LentTables;
use balance_entry::debug_util::check_lookups;
use delmatik_answers::answer::write_answer;
use expression::choices::Choices;
use lookup::table::LentLookups;

// `check_lookups`: the lists of all tables, one table after the other, and fourteen words of sizes for each table: main width, height,
// preprocessed width, preprocessed height, then how many main words, preprocessed words, public values, nodes, lookups, bytes of names,
// tuples, multiplicities, flags and elements it has. The seed is any number, drawn where traces come from others: it changes the time and
// never the answer, so that `check_at` takes none. The workspace then holds the slots of the last group visited.
pub fn delmatik_balance(
    field: u32,
    profile: u32,
    main: &[u32],
    preprocessed: &[u32],
    public_values: &[u32],
    nodes: &[u32],
    lookups: &[u32],
    names: &[u8],
    tuples: &[u32],
    multiplicities: &[u32],
    flags: &[u32],
    elements: &[u32],
    sizes: &[u32],
    seed: u64,
    workspace: &mut [u32],
    details: &mut [u64; 3],
) -> u32
    ensures { record { number = result; details = details.new; workspace = workspace.new }
        ≡ exported_balance (check_at (choices_of field profile)
        (lent_tables sizes.now main.now preprocessed.now public_values.now nodes.now
        lookups.now names.now tuples.now multiplicities.now flags.now elements.now)
        workspace.old) }
{
    let v = check_lookups(
        Choices { field, profile },
        &LentTables {
            sizes,
            main,
            preprocessed,
            public_values,
            nodes,
            lookups: LentLookups {
                records: lookups,
                names,
                tuples,
                multiplicities,
                flags,
                elements,
            },
        },
        seed,
        workspace,
    );
    write_answer(v, details)
}
