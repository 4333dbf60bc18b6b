// Degree and bus widths, for callers that hold words.
ghost use Rattle.std.specs.Prelude.{◌≡◌};
ghost use Rattle.expression.specs.Choices.{choices_of};
ghost use Rattle.lookup.specs.Lookups.{lent_lookups};
ghost use Rattle.lookup_degree.specs.ConstraintDegree.{degree_at};
ghost use Rattle.lookup_buses.specs.CheckBusWidths.{widths_at, lent_bus_tables};
ghost use Rattle.delmatik_answers.specs.Types.{columns_of};
ghost use Rattle.delmatik.specs.Exports.{exported_degree, exported_widest};

use delmatik_answers::answer::{verdict, write_answer};
use delmatik_answers::values::write_number;
use expression::choices::Choices;
use lookup::refusals::Columns;
use lookup::table::LentLookups;
use lookup_buses::check_bus_widths::check_bus_widths;
use lookup_degree::constraint_degree::constraint_degree;

// `constraint_degree_with_transition` of one lookup of a table. A refusal leaves the lent degree as it was.
pub fn delmatik_degree(
    field: u32,
    profile: u32,
    main_width: usize,
    pre_width: usize,
    public_values: usize,
    nodes: &[u32],
    lookups: &[u32],
    names: &[u8],
    tuples: &[u32],
    multiplicities: &[u32],
    flags: &[u32],
    elements: &[u32],
    lookup: usize,
    transition: u32,
    degree: &mut [u64; 1],
    details: &mut [u64; 3],
) -> u32
    ensures { record { number = result; details = details.new; value = degree.new }
        ≡ exported_degree (degree_at (choices_of field profile) (columns_of main_width pre_width public_values) nodes.now
        (lent_lookups lookups.now names.now tuples.now multiplicities.now flags.now
        elements.now) lookup transition) degree.old }
{
    let a = constraint_degree(
        Choices { field, profile },
        Columns {
            main: main_width,
            preprocessed: pre_width,
            public_values,
        },
        nodes,
        &LentLookups {
            records: lookups,
            names,
            tuples,
            multiplicities,
            flags,
            elements,
        },
        lookup,
        transition,
    );
    write_number(a, degree);
    write_answer(verdict(a), details)
}

// `check_bus_widths` of several tables: the widest bus tuple. `sizes` has for each table how many lookups, bytes of names and tuples it has.
// A refusal leaves the lent width as it was.
pub fn delmatik_widths(
    field: u32,
    profile: u32,
    lookups: &[u32],
    names: &[u8],
    tuples: &[u32],
    sizes: &[u32],
    widest: &mut [u64; 1],
    details: &mut [u64; 3],
) -> u32
    ensures { record { number = result; details = details.new; value = widest.new }
        ≡ exported_widest (widths_at (choices_of field profile) (lent_bus_tables lookups.now names.now tuples.now sizes.now))
        widest.old }
{
    let a = check_bus_widths(Choices { field, profile }, lookups, names, tuples, sizes);
    write_number(a, widest);
    write_answer(verdict(a), details)
}
