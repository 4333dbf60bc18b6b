// Generation for callers that hold bytes.
ghost use Rattle.std.specs.Prelude.{◌≡◌, length};
ghost use Rattle.expression.specs.Choices.{choices_of};
ghost use Rattle.lookup.specs.Lookups.{lent_lookups};
ghost use Rattle.lookup.specs.Table.{lent_table};
ghost use Rattle.logup.specs.Generation.{answer_of};
ghost use Rattle.delmatik_answers.specs.Generation.{generation_number, generation_details, generation_terminal, shape_of};
ghost use Rattle.wire.specs.inner.Place.{parts, Ordered, both_ends};
ghost use Rattle.delmatik_bytes.specs.Generate.{generation_on_bytes};
ghost use Rattle.delmatik_bytes.specs.inner.Words.{generation_on_words};

use crate::lookups::lookups_in;
use delmatik_answers::answer::write_details;
use delmatik_answers::generated::{generation_details, generation_number, write_terminal};
use expression::choices::{Choices, known, known_rule};
use expression::refusal::Refusal;
use expression::sizes::Shape;
use expression::table::LentTraces;
use logup_generation::generate_permutation::generate;
use lookup::table::LentTable;
use lookup::types::LookupTerminal;
use wire::room::{Ends, fill, fill_five, filled, less, less_five};
use wire::words::encode;

// The number of an answer; its details and the terminal are written.
fn tell_generated(
    g: Result<Option<LookupTerminal>, Refusal>,
    terminal: &mut [u32; 5],
    details_out: &mut [u64; 3],
) -> u32
    ensures { (result ≡ generation_number (answer_of g)) × (details_out.new ≡ generation_details (answer_of g)) × (terminal.new ≡ generation_terminal (answer_of g) terminal.old) }
{
    write_terminal(g, terminal);
    write_details(generation_details(g), details_out);
    generation_number(g)
}

// Generation on the words in a room: main, preprocessed, public values, nodes and challenges end at these places, and then the lists of the lookups.
fn generate_in(
    choices: Choices,
    rule: u32,
    shape: Shape,
    room: &[u32],
    front: Ends,
    back: Ends,
    names: &[u8],
    trace: &mut [u32],
) -> Result<Option<LookupTerminal>, Refusal>
    requires { Ordered front back (length room.now) }
    ensures { record { answer = answer_of result; buffer = trace.new } ≡ generation_on_words choices rule shape names.now (parts room.now 0 (both_ends front back)) trace.old }
{
    generate(
        choices,
        rule,
        &LentTable {
            traces: LentTraces {
                shape,
                main: &room[0..front.first],
                preprocessed: &room[front.first..front.second],
                public_values: &room[front.second..front.third],
            },
            nodes: &room[front.third..front.fourth],
            lookups: lookups_in(room, front.fifth, back, names),
        },
        &room[front.fourth..front.fifth],
        trace,
    )
}

// `delmatik_generate` on bytes: the trace buffer is bytes too. The number of the refusal is returned, 0 where there is none; its details and the
// terminal are written. Refusals 1 to 12 leave terminal and trace as they were. The rooms are working memory, and hold the words of their lists also
// where generation is refused.
pub fn delmatik_generate_bytes(
    field: u32,
    profile: u32,
    rule: u32,
    main_width: usize,
    height: usize,
    pre_width: usize,
    pre_height: usize,
    main: &[u8],
    preprocessed: &[u8],
    public_values: &[u8],
    nodes: &[u8],
    lookups: &[u8],
    names: &[u8],
    tuples: &[u8],
    multiplicities: &[u8],
    flags: &[u8],
    elements: &[u8],
    challenges: &[u8],
    trace: &mut [u8],
    room: &mut [u32],
    trace_room: &mut [u32],
    terminal: &mut [u32; 5],
    details_out: &mut [u64; 3],
) -> u32
    ensures { record { number = result; details = details_out.new; terminal = terminal.new; trace = trace.new; room = room.new; trace_room = trace_room.new }
        ≡ generation_on_bytes (choices_of field profile) rule
        (lent_table (shape_of main_width height pre_width pre_height) main.now preprocessed.now public_values.now nodes.now
        (lent_lookups lookups.now names.now tuples.now multiplicities.now flags.now elements.now))
        challenges.now trace.old terminal.old room.old trace_room.old }
{
    let choices = Choices { field, profile };
    if !(known(choices) & known_rule(rule)) {
        return tell_generated(Err(Refusal::SizeAtOdds), terminal, details_out);
    }
    let left = less_five(
        Some(room.len()),
        main.len(),
        preprocessed.len(),
        public_values.len(),
        nodes.len(),
        challenges.len(),
    );
    let left = less_five(
        left,
        lookups.len(),
        tuples.len(),
        multiplicities.len(),
        flags.len(),
        elements.len(),
    );
    let trace_left = less(Some(trace_room.len()), trace.len());
    if !(filled(left) & filled(trace_left)) {
        return tell_generated(Err(Refusal::SizeAtOdds), terminal, details_out);
    }
    let front = fill_five(
        main,
        preprocessed,
        public_values,
        nodes,
        challenges,
        room,
        0,
    );
    let back = fill_five(
        lookups,
        tuples,
        multiplicities,
        flags,
        elements,
        room,
        front.fifth,
    );
    fill(trace, trace_room, 0);
    let answer = generate_in(
        choices,
        rule,
        Shape {
            main_width,
            height,
            pre_width,
            pre_height,
        },
        room,
        front,
        back,
        names,
        trace_room,
    );
    encode(trace_room, trace);
    tell_generated(answer, terminal, details_out)
}
