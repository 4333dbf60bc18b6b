// Generation for callers that hold bytes.
ghost use Rattle.std.specs.Prelude.{◌≡◌};
ghost use Rattle.expression.specs.Choices.{choices_of};
ghost use Rattle.lookup.specs.Lookups.{lent_lookups};
ghost use Rattle.lookup.specs.Table.{lent_table};
ghost use Rattle.delmatik_answers.specs.Generation.{shape_of};
ghost use Rattle.delmatik_bytes.specs.Generate.{generation_on_bytes};

// `delmatik_generate` on bytes: the trace buffer is bytes too. The number of the refusal is returned, 0 where there is none; its details and the
// terminal are written. Refusals 1 to 12 leave terminal and trace as they were. The rooms are working memory, and hold the words of their lists also
// where generation is refused.
#[unsafe(no_mangle)]
pub extern "C" fn delmatik_generate_bytes(
    field: u32,
    profile: u32,
    rule: u32,
    main_width: usize,
    height: usize,
    pre_width: usize,
    pre_height: usize,
    main: &[u8],
    preprocessed: &[u8],
    public_values: &[u8],
    nodes: &[u8],
    lookups: &[u8],
    names: &[u8],
    tuples: &[u8],
    multiplicities: &[u8],
    flags: &[u8],
    elements: &[u8],
    challenges: &[u8],
    trace: &mut [u8],
    room: &mut [u32],
    trace_room: &mut [u32],
    terminal: &mut [u32; 5],
    details_out: &mut [u64; 3],
) -> u32
    ensures { record { number = result; details = details_out.new; terminal = terminal.new; trace = trace.new; room = room.new; trace_room = trace_room.new }
        ≡ generation_on_bytes (choices_of field profile) rule
        (lent_table (shape_of main_width height pre_width pre_height) main.now preprocessed.now public_values.now nodes.now
        (lent_lookups lookups.now names.now tuples.now multiplicities.now flags.now elements.now))
        challenges.now trace.old terminal.old room.old trace_room.old }
{
    delmatik_bytes::generate_permutation::delmatik_generate_bytes(
        field,
        profile,
        rule,
        main_width,
        height,
        pre_width,
        pre_height,
        main,
        preprocessed,
        public_values,
        nodes,
        lookups,
        names,
        tuples,
        multiplicities,
        flags,
        elements,
        challenges,
        trace,
        room,
        trace_room,
        terminal,
        details_out,
    )
}
