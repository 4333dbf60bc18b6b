// The constraints over a whole trace, for callers that hold words.
ghost use Rattle.std.specs.Prelude.{◌≡◌};
ghost use Rattle.expression.specs.Choices.{choices_of};
ghost use Rattle.lookup.specs.Lookups.{lent_lookups};
ghost use Rattle.lookup.specs.Table.{lent_table};
ghost use Rattle.logup.specs.Constraints.{verdict_at};
ghost use Rattle.delmatik_answers.specs.Generation.{shape_of};
ghost use Rattle.delmatik_answers.specs.Constraints.{marked_terminal};
ghost use Rattle.delmatik.specs.Exports.{exported_verdict};

use delmatik_answers::answer::write_answer;
use delmatik_answers::terminal::marked_terminal;
use expression::choices::Choices;
use expression::sizes::Shape;
use expression::table::LentTraces;
use logup_constraints::eval_all::eval_all;
use lookup::table::{LentLookups, LentTable};

// `eval_all`: the number of the refusal is returned, 0 where every constraint is zero on every row; its details are written. The terminal
// is a mark, 0 where it is absent, and its four words.
pub fn delmatik_constraints(
    field: u32,
    profile: u32,
    rule: u32,
    main_width: usize,
    height: usize,
    pre_width: usize,
    pre_height: usize,
    main: &[u32],
    preprocessed: &[u32],
    public_values: &[u32],
    nodes: &[u32],
    lookups: &[u32],
    names: &[u8],
    tuples: &[u32],
    multiplicities: &[u32],
    flags: &[u32],
    elements: &[u32],
    challenges: &[u32],
    trace_width: usize,
    trace: &[u32],
    terminal_present: u32,
    t0: u32,
    t1: u32,
    t2: u32,
    t3: u32,
    details: &mut [u64; 3],
) -> u32
    ensures { record { number = result; details = details.new }
        ≡ exported_verdict (verdict_at (choices_of field profile) rule
        (lent_table (shape_of main_width height pre_width pre_height) main.now preprocessed.now public_values.now
        nodes.now
        (lent_lookups lookups.now names.now tuples.now multiplicities.now flags.now
        elements.now)) challenges.now trace_width trace.now (marked_terminal terminal_present t0 t1 t2 t3)) }
{
    let v = eval_all(
        Choices { field, profile },
        rule,
        &LentTable {
            traces: LentTraces {
                shape: Shape {
                    main_width,
                    height,
                    pre_width,
                    pre_height,
                },
                main,
                preprocessed,
                public_values,
            },
            nodes,
            lookups: LentLookups {
                records: lookups,
                names,
                tuples,
                multiplicities,
                flags,
                elements,
            },
        },
        challenges,
        trace_width,
        trace,
        marked_terminal(terminal_present, t0, t1, t2, t3),
    );
    write_answer(v, details)
}
