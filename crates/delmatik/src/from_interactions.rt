// Building for callers that hold words.
ghost use Rattle.std.specs.Prelude.{◌≡◌};
ghost use Rattle.expression.specs.Choices.{choices_of};
ghost use Rattle.lookup_builder.specs.FromInteractions.{lent_interactions, building_at};
ghost use Rattle.delmatik_answers.specs.Types.{columns_of};
ghost use Rattle.delmatik_answers.specs.Building.{kinds_of};
ghost use Rattle.delmatik.specs.Exports.{exported_building};

use delmatik_answers::answer::{verdict, write_answer};
use delmatik_answers::built::write_built;
use expression::choices::Choices;
use lookup::refusals::Columns;
use lookup_builder::answer::{Kinds, LentInteractions};
use lookup_builder::builder::from_interactions;

// `from_interactions` of one table: the lookups' words into the front of a lent list, and how many are used. `interactions` has two words for
// each, locals first, then globals, then exclusives: the length of its name and the number of its tuples. A refusal leaves the list and this
// number as they were.
pub fn delmatik_build(
    field: u32,
    profile: u32,
    main_width: usize,
    pre_width: usize,
    public_values: usize,
    nodes: &[u32],
    locals: usize,
    globals: usize,
    exclusives: usize,
    interactions: &[u32],
    weights: &[u32],
    names: &[u8],
    tuples: &[u32],
    multiplicities: &[u32],
    flags: &[u32],
    elements: &[u32],
    lookups_out: &mut [u32],
    used: &mut [u64; 1],
    details: &mut [u64; 3],
) -> u32
    ensures { record { number = result; details = details.new; used = used.new; lookups = lookups_out.new }
        ≡ exported_building (building_at (choices_of field profile) (columns_of main_width pre_width public_values)
        nodes.now (kinds_of locals globals exclusives)
        (lent_interactions interactions.now weights.now names.now tuples.now multiplicities.now
        flags.now elements.now) lookups_out.old) used.old }
{
    let a = from_interactions(
        Choices { field, profile },
        Columns {
            main: main_width,
            preprocessed: pre_width,
            public_values,
        },
        nodes,
        Kinds {
            locals,
            globals,
            exclusives,
        },
        &LentInteractions {
            records: interactions,
            weights,
            names,
            tuples,
            multiplicities,
            flags,
            elements,
        },
        lookups_out,
    );
    write_built(a, used);
    write_answer(verdict(a), details)
}
