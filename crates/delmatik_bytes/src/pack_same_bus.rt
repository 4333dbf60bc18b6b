// Packing for callers that hold bytes. The lists that are written stand in one room, so they are written one after the other, by the functions that
// `pack_same_bus` of words uses for its six lists.
ghost use Rattle.std.specs.Prelude.{◌≡◌, true, ◌-◌, ◌≤◌, [], ◌∷◌, map, length, take, drop};
ghost use Rattle.expression.specs.Choices.{choices_of};
ghost use Rattle.lookup.specs.Lookups.{lent_lookups, as_lookups, lookup_count};
ghost use Rattle.packing_columns.specs.inner.LookupLists.{list_start, list_parts};
ghost use Rattle.packing_columns.specs.inner.LookupListsRequires.{LookupNumbers, FewTuples};
ghost use Rattle.packing.specs.Written.{written};
ghost use Rattle.lookup_degree.specs.Formed.{Formed};
ghost use Rattle.packing.specs.PackSameBus.{holds, all_written};
ghost use Rattle.packing_columns.specs.inner.Layout.{plan_words, formed_outcome, ListsExact, OutputsHold};
ghost use Rattle.delmatik_answers.specs.Types.{columns_of};
ghost use Rattle.delmatik_answers.specs.Packing.{packing_refused, packing_used};
ghost use Rattle.expression.specs.Refusal.{answer_number, answer_details};
ghost use Rattle.wire.specs.Wire.{bytes_of};
ghost use Rattle.wire.specs.inner.Place.{parts, put_part, Split, five_ends, After};
ghost use Rattle.delmatik_bytes.specs.Pack.{packing_on_bytes};
ghost use Rattle.delmatik_bytes.specs.inner.Words.{lookups_in, packing_on_words};
ghost use Rattle.delmatik_bytes.specs.inner.Sized.{Sized};

use crate::lookups::lookups_in;
use delmatik_answers::answer::write_answer;
use delmatik_answers::packed::{packing_verdict, write_used};
use expression::choices::{Choices, known, limits_of};
use expression::refusal::Refusal;
use expression::sizes::Limits;
use field::modulus::prime_of;
use lookup::refusals::{Columns, form_refusal};
use lookup::table::LentLookups;
use lookup::types::LOOKUP_WORDS;
use packing::answer::Counts;
use packing_columns::columns::Plan;
use packing_columns::layout::{counts_hold, counts_of, plan_of, plan_refusal};
use packing_columns::lookup_lists::{LookupList, copy, write_list};
use wire::room::{Ends, fill, fill_five, filled, less, less_five};
use wire::words::encode;

// The parts of one list that belong to these lookups, at the front of a part of the room.
fn write_at(
    list: LookupList,
    lookups: &[u32],
    tuples: &[u32],
    order: &[u32],
    src: &[u32],
    room: &mut [u32],
    at: usize,
    end: usize,
)
    requires { FewTuples lookups.now × LookupNumbers (lookup_count lookups.now) order.now × (list_start list lookups.now tuples.now (lookup_count lookups.now) ≤ length src.now)
        × (at ≤ end) × (end ≤ length room.old) × (length (list_parts list lookups.now tuples.now src.now order.now) ≤ length (take (end - at) (drop at room.old))) }
    ensures { room.new
        ≡ put_part at end (written (list_parts list lookups.now tuples.now src.now order.now)) room.old }
{
    write_list(list, lookups, tuples, order, src, &mut room[at..end]);
}

// The words of the packed table at the front of the five parts of a room, and its names.
fn write_in(plan: Plan, lookups: &LentLookups, ends: Ends, names_out: &mut [u8], room: &mut [u32])
    requires { OutputsHold plan (as_lookups lookups.now)
        (lookups_in names_out.old (parts room.old 0 (five_ends ends))) × Split ends (length room.old) }
    ensures { lookups_in names_out.new (parts room.new 0 (five_ends ends))
        ≡ all_written (plan_words plan (as_lookups lookups.now))
        (lookups_in names_out.old (parts room.old 0 (five_ends ends))) }
{
    let n = lookups.records.len() / LOOKUP_WORDS;
    let used = LOOKUP_WORDS * plan.columns;
    let order = &plan.order[0..n];
    copy(&plan.words[0..used], &mut room[0..ends.first]);
    write_list(
        LookupList::Names,
        lookups.records,
        &[],
        &plan.heads[0..plan.columns],
        lookups.names,
        names_out,
    );
    write_at(
        LookupList::Tuples,
        lookups.records,
        lookups.tuples,
        order,
        lookups.tuples,
        room,
        ends.first,
        ends.second,
    );
    write_at(
        LookupList::Multiplicities,
        lookups.records,
        lookups.tuples,
        order,
        lookups.multiplicities,
        room,
        ends.second,
        ends.third,
    );
    write_at(
        LookupList::Flags,
        lookups.records,
        lookups.tuples,
        order,
        lookups.flags,
        room,
        ends.third,
        ends.fourth,
    );
    write_at(
        LookupList::Elements,
        lookups.records,
        lookups.tuples,
        order,
        lookups.elements,
        room,
        ends.fourth,
        ends.fifth,
    );
}

// Packing of a table that has none of refusals 1 to 5, into parts that hold it. Nothing is written before the last refusal is known.
fn pack_formed(
    limits: Limits,
    limit: u64,
    nodes: &[u32],
    lookups: &LentLookups,
    ends: Ends,
    names_out: &mut [u8],
    room: &mut [u32],
) -> Result<Counts, Refusal>
    requires { Formed limits nodes.now (as_lookups lookups.now)
        × ListsExact lookups.now.records.now lookups.now.names.now lookups.now.tuples.now × Split ends (length room.old)
        × (holds (lookups_in names_out.old (parts room.old 0 (five_ends ends))) (as_lookups lookups.now) ≡ true) }
    ensures { record { answer = result; lists = lookups_in names_out.new (parts room.new 0 (five_ends ends)) }
        ≡ formed_outcome limit nodes.now
        (as_lookups lookups.now)
        (lookups_in names_out.old (parts room.old 0 (five_ends ends))) }
{
    let plan = plan_of(limits, limit, nodes, lookups);
    let counts = counts_of(plan, lookups.records, lookups.tuples);
    plan_refusal(plan.over, lookups.records, lookups.names, lookups.tuples)?;
    write_in(plan, lookups, ends, names_out, room);
    Ok(counts)
}

// Packing of the words in a room: the nodes, and then the lists of the lookups. What is written goes into the parts of another room.
fn pack_in(
    choices: Choices,
    limit: u64,
    columns: Columns,
    room: &[u32],
    nodes_end: usize,
    ends: Ends,
    names: &[u8],
    out_ends: Ends,
    names_out: &mut [u8],
    out_room: &mut [u32],
) -> Result<Counts, Refusal>
    requires { After nodes_end ends (length room.now) × Split out_ends (length out_room.old) }
    ensures { record { answer = result; lists = lookups_in names_out.new (parts out_room.new 0 (five_ends out_ends)) }
        ≡ packing_on_words choices limit columns names.now (parts room.now 0 (nodes_end ∷ five_ends ends))
        (lookups_in names_out.old (parts out_room.old 0 (five_ends out_ends))) }
{
    let nodes = &room[0..nodes_end];
    let lookups = lookups_in(room, nodes_end, ends, names);
    let own = Counts {
        lookups: lookups.records.len(),
        names: lookups.names.len(),
        tuples: lookups.tuples.len(),
        multiplicities: lookups.multiplicities.len(),
        flags: lookups.flags.len(),
        elements: lookups.elements.len(),
    };
    let lent = Counts {
        lookups: out_ends.first,
        names: names_out.len(),
        tuples: out_ends.second - out_ends.first,
        multiplicities: out_ends.third - out_ends.second,
        flags: out_ends.fourth - out_ends.third,
        elements: out_ends.fifth - out_ends.fourth,
    };
    if !counts_hold(own, lent) {
        return Err(Refusal::SizeAtOdds);
    }
    let limits = limits_of(choices.profile);
    form_refusal(limits, prime_of(choices.field), columns, nodes, &lookups)?;
    pack_formed(
        limits, limit, nodes, &lookups, out_ends, names_out, out_room,
    )
}

// The words of the five parts of a room as bytes.
fn encode_five(
    room: &[u32],
    ends: Ends,
    lookups_out: &mut [u8],
    tuples_out: &mut [u8],
    multiplicities_out: &mut [u8],
    flags_out: &mut [u8],
    elements_out: &mut [u8],
)
    requires { Split ends (length room.now) × Sized ends lookups_out.old tuples_out.old multiplicities_out.old flags_out.old elements_out.old }
    ensures { (lookups_out.new ∷ tuples_out.new ∷ multiplicities_out.new ∷ flags_out.new ∷ elements_out.new ∷ [])
        ≡ map bytes_of (parts room.now 0 (five_ends ends)) }
{
    encode(&room[0..ends.first], lookups_out);
    encode(&room[ends.first..ends.second], tuples_out);
    encode(&room[ends.second..ends.third], multiplicities_out);
    encode(&room[ends.third..ends.fourth], flags_out);
    encode(&room[ends.fourth..ends.fifth], elements_out);
}

// The number of an answer; its details are written, and how many words, or bytes of names, of each list are used. A refusal leaves these numbers as
// they were.
fn tell_packed(a: Result<Counts, Refusal>, used: &mut [u64; 6], details: &mut [u64; 3]) -> u32
    ensures { (result ≡ answer_number (packing_refused a)) × (details.new ≡ answer_details (packing_refused a)) × (used.new ≡ packing_used a used.old) }
{
    write_used(a, used);
    write_answer(packing_verdict(a), details)
}

// `delmatik_pack` on bytes. The number of the refusal is returned, 0 where there is none; its details are written, and in `used` how many words, or
// bytes of names, of each list are used. A refusal leaves the lists and these numbers as they were. The rooms are working memory, and hold the words
// of their lists also where packing is refused.
pub fn delmatik_pack_bytes(
    field: u32,
    profile: u32,
    limit: u64,
    main_width: usize,
    pre_width: usize,
    public_values: usize,
    nodes: &[u8],
    lookups: &[u8],
    names: &[u8],
    tuples: &[u8],
    multiplicities: &[u8],
    flags: &[u8],
    elements: &[u8],
    lookups_out: &mut [u8],
    names_out: &mut [u8],
    tuples_out: &mut [u8],
    multiplicities_out: &mut [u8],
    flags_out: &mut [u8],
    elements_out: &mut [u8],
    room: &mut [u32],
    out_room: &mut [u32],
    used: &mut [u64; 6],
    details: &mut [u64; 3],
) -> u32
    ensures { record {
      number = result;
      details = details.new;
      used = used.new;
      lists = lent_lookups lookups_out.new names_out.new tuples_out.new multiplicities_out.new flags_out.new elements_out.new;
      room = room.new;
      out_room = out_room.new;
    }
        ≡ packing_on_bytes (choices_of field profile) limit (columns_of main_width pre_width public_values) nodes.now
        (lent_lookups lookups.now names.now tuples.now multiplicities.now flags.now elements.now)
        (lent_lookups lookups_out.old names_out.old tuples_out.old multiplicities_out.old flags_out.old elements_out.old)
        used.old room.old out_room.old }
{
    let choices = Choices { field, profile };
    if !known(choices) {
        return tell_packed(Err(Refusal::SizeAtOdds), used, details);
    }
    let left = less(Some(room.len()), nodes.len());
    let left = less_five(
        left,
        lookups.len(),
        tuples.len(),
        multiplicities.len(),
        flags.len(),
        elements.len(),
    );
    let out_left = less_five(
        Some(out_room.len()),
        lookups_out.len(),
        tuples_out.len(),
        multiplicities_out.len(),
        flags_out.len(),
        elements_out.len(),
    );
    if !(filled(left) & filled(out_left)) {
        return tell_packed(Err(Refusal::SizeAtOdds), used, details);
    }
    let nodes_end = fill(nodes, room, 0);
    let ends = fill_five(
        lookups,
        tuples,
        multiplicities,
        flags,
        elements,
        room,
        nodes_end,
    );
    let out_ends = fill_five(
        lookups_out,
        tuples_out,
        multiplicities_out,
        flags_out,
        elements_out,
        out_room,
        0,
    );
    let answer = pack_in(
        choices,
        limit,
        Columns {
            main: main_width,
            preprocessed: pre_width,
            public_values,
        },
        room,
        nodes_end,
        ends,
        names,
        out_ends,
        names_out,
        out_room,
    );
    encode_five(
        out_room,
        out_ends,
        lookups_out,
        tuples_out,
        multiplicities_out,
        flags_out,
        elements_out,
    );
    tell_packed(answer, used, details)
}
