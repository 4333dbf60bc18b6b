// Balance for callers that hold bytes.
ghost use Rattle.std.specs.Prelude.{◌≡◌};
ghost use Rattle.expression.specs.Choices.{choices_of};
ghost use Rattle.balance.specs.Tables.{lent_tables};
ghost use Rattle.delmatik_bytes.specs.Balance.{balance_on_bytes};

// `delmatik_balance` on bytes: the workspace is bytes too, and the seed a number. The number of the refusal is returned, 0 where there is none; its details are written.
#[unsafe(no_mangle)]
pub extern "C" fn delmatik_balance_bytes(
    field: u32,
    profile: u32,
    main: &[u8],
    preprocessed: &[u8],
    public_values: &[u8],
    nodes: &[u8],
    lookups: &[u8],
    names: &[u8],
    tuples: &[u8],
    multiplicities: &[u8],
    flags: &[u8],
    elements: &[u8],
    sizes: &[u8],
    seed: u64,
    workspace: &mut [u8],
    room: &mut [u32],
    workspace_room: &mut [u32],
    details: &mut [u64; 3],
) -> u32
    ensures { record { number = result; details = details.new; workspace = workspace.new; room = room.new; workspace_room = workspace_room.new }
        ≡ balance_on_bytes (choices_of field profile)
        (lent_tables sizes.now main.now preprocessed.now public_values.now nodes.now lookups.now names.now
        tuples.now multiplicities.now flags.now elements.now)
        workspace.old room.old workspace_room.old }
{
    delmatik_bytes::check_lookups::delmatik_balance_bytes(
        field,
        profile,
        main,
        preprocessed,
        public_values,
        nodes,
        lookups,
        names,
        tuples,
        multiplicities,
        flags,
        elements,
        sizes,
        seed,
        workspace,
        room,
        workspace_room,
        details,
    )
}
