// Packing for callers that hold words.
ghost use Rattle.std.specs.Prelude.{◌≡◌};
ghost use Rattle.expression.specs.Choices.{choices_of};
ghost use Rattle.lookup.specs.Lookups.{lent_lookups};
ghost use Rattle.packing.specs.PackSameBus.{packing_at};
ghost use Rattle.delmatik_answers.specs.Types.{columns_of};
ghost use Rattle.delmatik.specs.Exports.{exported_packing};

use delmatik_answers::answer::{verdict, write_answer};
use delmatik_answers::packed::write_used;
use expression::choices::Choices;
use lookup::refusals::Columns;
use lookup::table::LentLookups;
use packing_entry::pack_same_bus::pack_same_bus;

// `pack_same_bus` of one table: its columns into the front of six lent lists, each as long as the table's own at least, and how much of each is
// used. A refusal leaves the lists and these numbers as they were.
pub fn delmatik_pack(
    field: u32,
    profile: u32,
    limit: u64,
    main_width: usize,
    pre_width: usize,
    public_values: usize,
    nodes: &[u32],
    lookups: &[u32],
    names: &[u8],
    tuples: &[u32],
    multiplicities: &[u32],
    flags: &[u32],
    elements: &[u32],
    lookups_out: &mut [u32],
    names_out: &mut [u8],
    tuples_out: &mut [u32],
    multiplicities_out: &mut [u32],
    flags_out: &mut [u32],
    elements_out: &mut [u32],
    used: &mut [u64; 6],
    details: &mut [u64; 3],
) -> u32
    ensures { record {
      number = result;
      details = details.new;
      used = used.new;
      lists = lent_lookups lookups_out.new
          names_out.new tuples_out.new multiplicities_out.new flags_out.new elements_out.new;
    }
        ≡ exported_packing (packing_at (choices_of field profile) limit (columns_of main_width pre_width public_values) nodes.now
        (lent_lookups lookups.now names.now tuples.now multiplicities.now flags.now
        elements.now)
        (lent_lookups lookups_out.old names_out.old tuples_out.old multiplicities_out.old
        flags_out.old elements_out.old)) used.old }
{
    let a = pack_same_bus(
        Choices { field, profile },
        limit,
        Columns {
            main: main_width,
            preprocessed: pre_width,
            public_values,
        },
        nodes,
        &LentLookups {
            records: lookups,
            names,
            tuples,
            multiplicities,
            flags,
            elements,
        },
        lookups_out,
        names_out,
        tuples_out,
        multiplicities_out,
        flags_out,
        elements_out,
    );
    write_used(a, used);
    write_answer(verdict(a), details)
}
