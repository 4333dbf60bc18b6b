// The terminals' sum and the height bound, for callers that hold words.
ghost use Rattle.std.specs.Prelude.{◌≡◌};
ghost use Rattle.expression.specs.Choices.{choices_of};
ghost use Rattle.lookup_protocol.specs.Terminals.{terminals_at};
ghost use Rattle.lookup_protocol.specs.Height.{height_at};
ghost use Rattle.delmatik.specs.Exports.{exported_verdict};

// `verify_terminal_sum`: five words for each terminal, a mark (0 where it is absent) and its four words.
#[unsafe(no_mangle)]
pub extern "C" fn delmatik_terminals(
    field: u32,
    profile: u32,
    terminals: &[u32],
    details: &mut [u64; 3],
) -> u32
    ensures { record { number = result; details = details.new } ≡ exported_verdict (terminals_at (choices_of field profile) terminals.now) }
{
    delmatik::protocol::delmatik_terminals(field, profile, terminals, details)
}

// The height bound: the lookups of all tables, and for each table how many it has and its height.
#[unsafe(no_mangle)]
pub extern "C" fn delmatik_height_bound(
    field: u32,
    profile: u32,
    lookups: &[u32],
    counts: &[u32],
    heights: &[u32],
    details: &mut [u64; 3],
) -> u32
    ensures { record { number = result; details = details.new }
        ≡ exported_verdict (height_at (choices_of field profile) lookups.now counts.now heights.now) }
{
    delmatik::protocol::delmatik_height_bound(field, profile, lookups, counts, heights, details)
}
