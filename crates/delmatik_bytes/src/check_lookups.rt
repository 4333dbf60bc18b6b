// Balance for callers that hold bytes.
ghost use Rattle.std.specs.Prelude.{◌≡◌, length};
ghost use Rattle.expression.specs.Choices.{choices_of};
ghost use Rattle.expression.specs.Refusal.{refusal};
ghost use Rattle.balance.specs.Tables.{lent_tables};
ghost use Rattle.wire.specs.inner.Place.{parts, Ordered, both_ends};
ghost use Rattle.delmatik_bytes.specs.Balance.{balance_on_bytes};
ghost use Rattle.delmatik_bytes.specs.inner.Words.{balance_on_words};

use crate::lookups::lookups_in;
use balance::tables::LentTables;
use balance_entry::debug_util::check_lookups;
use delmatik_answers::answer::write_answer;
use expression::choices::{Choices, known};
use expression::refusal::Refusal;
use wire::room::{Ends, fill, fill_five, filled, less, less_five};
use wire::words::encode;

// Balance on the words in a room: main, preprocessed, public values, nodes and sizes end at these places, and then the lists of the lookups.
fn check_in(
    choices: Choices,
    room: &[u32],
    front: Ends,
    back: Ends,
    names: &[u8],
    seed: u64,
    workspace: &mut [u32],
) -> Result<(), Refusal>
    requires { Ordered front back (length room.now) }
    ensures { record { refusal = refusal result; workspace = workspace.new } ≡ balance_on_words choices names.now (parts room.now 0 (both_ends front back)) workspace.old }
{
    check_lookups(
        choices,
        &LentTables {
            sizes: &room[front.fourth..front.fifth],
            main: &room[0..front.first],
            preprocessed: &room[front.first..front.second],
            public_values: &room[front.second..front.third],
            nodes: &room[front.third..front.fourth],
            lookups: lookups_in(room, front.fifth, back, names),
        },
        seed,
        workspace,
    )
}

// `delmatik_balance` on bytes: the workspace is bytes too, and the seed a number. The number of the refusal is returned, 0 where there is none; its details are written.
pub fn delmatik_balance_bytes(
    field: u32,
    profile: u32,
    main: &[u8],
    preprocessed: &[u8],
    public_values: &[u8],
    nodes: &[u8],
    lookups: &[u8],
    names: &[u8],
    tuples: &[u8],
    multiplicities: &[u8],
    flags: &[u8],
    elements: &[u8],
    sizes: &[u8],
    seed: u64,
    workspace: &mut [u8],
    room: &mut [u32],
    workspace_room: &mut [u32],
    details: &mut [u64; 3],
) -> u32
    ensures { record { number = result; details = details.new; workspace = workspace.new; room = room.new; workspace_room = workspace_room.new }
        ≡ balance_on_bytes (choices_of field profile)
        (lent_tables sizes.now main.now preprocessed.now public_values.now nodes.now lookups.now names.now
        tuples.now multiplicities.now flags.now elements.now)
        workspace.old room.old workspace_room.old }
{
    let choices = Choices { field, profile };
    if !known(choices) {
        return write_answer(Err(Refusal::SizeAtOdds), details);
    }
    let left = less_five(
        Some(room.len()),
        main.len(),
        preprocessed.len(),
        public_values.len(),
        nodes.len(),
        sizes.len(),
    );
    let left = less_five(
        left,
        lookups.len(),
        tuples.len(),
        multiplicities.len(),
        flags.len(),
        elements.len(),
    );
    let workspace_left = less(Some(workspace_room.len()), workspace.len());
    if !(filled(left) & filled(workspace_left)) {
        return write_answer(Err(Refusal::SizeAtOdds), details);
    }
    let front = fill_five(main, preprocessed, public_values, nodes, sizes, room, 0);
    let back = fill_five(
        lookups,
        tuples,
        multiplicities,
        flags,
        elements,
        room,
        front.fifth,
    );
    fill(workspace, workspace_room, 0);
    let verdict = check_in(choices, room, front, back, names, seed, workspace_room);
    encode(workspace_room, workspace);
    write_answer(verdict, details)
}
