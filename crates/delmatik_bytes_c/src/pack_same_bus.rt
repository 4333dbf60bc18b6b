// Packing for callers that hold bytes. The lists that are written stand in one room, so they are written one after the other, by the functions that
// `pack_same_bus` of words uses for its six lists.
ghost use Rattle.std.specs.Prelude.{◌≡◌, ◌-◌};
ghost use Rattle.expression.specs.Choices.{choices_of};
ghost use Rattle.lookup.specs.Lookups.{lent_lookups};
ghost use Rattle.delmatik_answers.specs.Types.{columns_of};
ghost use Rattle.delmatik_bytes.specs.Pack.{packing_on_bytes};

// `delmatik_pack` on bytes. The number of the refusal is returned, 0 where there is none; its details are written, and in `used` how many words, or
// bytes of names, of each list are used. A refusal leaves the lists and these numbers as they were. The rooms are working memory, and hold the words
// of their lists also where packing is refused.
#[unsafe(no_mangle)]
pub extern "C" fn delmatik_pack_bytes(
    field: u32,
    profile: u32,
    limit: u64,
    main_width: usize,
    pre_width: usize,
    public_values: usize,
    nodes: &[u8],
    lookups: &[u8],
    names: &[u8],
    tuples: &[u8],
    multiplicities: &[u8],
    flags: &[u8],
    elements: &[u8],
    lookups_out: &mut [u8],
    names_out: &mut [u8],
    tuples_out: &mut [u8],
    multiplicities_out: &mut [u8],
    flags_out: &mut [u8],
    elements_out: &mut [u8],
    room: &mut [u32],
    out_room: &mut [u32],
    used: &mut [u64; 6],
    details: &mut [u64; 3],
) -> u32
    ensures { record {
      number = result;
      details = details.new;
      used = used.new;
      lists = lent_lookups lookups_out.new names_out.new tuples_out.new multiplicities_out.new flags_out.new elements_out.new;
      room = room.new;
      out_room = out_room.new;
    }
        ≡ packing_on_bytes (choices_of field profile) limit (columns_of main_width pre_width public_values) nodes.now
        (lent_lookups lookups.now names.now tuples.now multiplicities.now flags.now elements.now)
        (lent_lookups lookups_out.old names_out.old tuples_out.old multiplicities_out.old flags_out.old elements_out.old)
        used.old room.old out_room.old }
{
    delmatik_bytes::pack_same_bus::delmatik_pack_bytes(
        field,
        profile,
        limit,
        main_width,
        pre_width,
        public_values,
        nodes,
        lookups,
        names,
        tuples,
        multiplicities,
        flags,
        elements,
        lookups_out,
        names_out,
        tuples_out,
        multiplicities_out,
        flags_out,
        elements_out,
        room,
        out_room,
        used,
        details,
    )
}
