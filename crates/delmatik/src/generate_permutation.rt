// Generation for callers that hold words.
ghost use Rattle.std.specs.Prelude.{◌≡◌, take, drop};
ghost use Rattle.expression.specs.Choices.{choices_of};
ghost use Rattle.expression.specs.Words.{word};
ghost use Rattle.lookup.specs.Lookups.{lent_lookups};
ghost use Rattle.lookup.specs.Table.{lent_table};
ghost use Rattle.logup.specs.Generation.{generation_at};
ghost use Rattle.delmatik_answers.specs.Generation.{shape_of};
ghost use Rattle.delmatik_answers.specs.Row.{exported_row};
ghost use Rattle.delmatik.specs.Exports.{exported_generation};

use delmatik_answers::answer::{verdict, write_answer};
use delmatik_answers::generated::write_terminal;
use delmatik_answers::row::write_part;
use expression::choices::Choices;
use expression::sizes::Shape;
use expression::table::LentTraces;
use logup_generation::generate_permutation::{generate, row};
use lookup::table::{LentLookups, LentTable};

// `generate_permutation`: the number of the refusal is returned, 0 where there is none; its details, the terminal and the trace are written.
// Refusals 1 to 12 leave terminal and trace as they were; after 13 to 15 the terminal is five zeros.
pub fn delmatik_generate(
    field: u32,
    profile: u32,
    rule: u32,
    main_width: usize,
    height: usize,
    pre_width: usize,
    pre_height: usize,
    main: &[u32],
    preprocessed: &[u32],
    public_values: &[u32],
    nodes: &[u32],
    lookups: &[u32],
    names: &[u8],
    tuples: &[u32],
    multiplicities: &[u32],
    flags: &[u32],
    elements: &[u32],
    challenges: &[u32],
    trace: &mut [u32],
    terminal: &mut [u32; 5],
    details_out: &mut [u64; 3],
) -> u32
    ensures { record { number = result; details = details_out.new; terminal = terminal.new; trace = trace.new }
        ≡ exported_generation (generation_at (choices_of field profile) rule
        (lent_table (shape_of main_width height pre_width pre_height) main.now preprocessed.now public_values.now
        nodes.now
        (lent_lookups lookups.now names.now tuples.now multiplicities.now flags.now
        elements.now)) challenges.now trace.old) terminal.old }
{
    let g = generate(
        Choices { field, profile },
        rule,
        &LentTable {
            traces: LentTraces {
                shape: Shape {
                    main_width,
                    height,
                    pre_width,
                    pre_height,
                },
                main,
                preprocessed,
                public_values,
            },
            nodes,
            lookups: LentLookups {
                records: lookups,
                names,
                tuples,
                multiplicities,
                flags,
                elements,
            },
        },
        challenges,
        trace,
    );
    write_terminal(g, terminal);
    write_answer(verdict(g), details_out)
}

// Row r of a trace of so many lookups and rows, as a part of it: where it begins, and how many words it has; 0 and 0 where it is empty.
pub fn delmatik_row(trace: &[u32], lookups: usize, height: usize, r: u64, part: &mut [u64; 2])
    ensures { record {
      part = part.exit.now;
      words = take (word part.exit.now 1) (drop (word part.exit.now 0) trace.now);
    } ≡ exported_row trace.now lookups height r }
{
    write_part(row(trace, lookups, height, r), r, part);
}
