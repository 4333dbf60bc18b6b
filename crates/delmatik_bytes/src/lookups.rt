// The lookups of a table whose words stand in a room.
ghost use Rattle.std.specs.Prelude.{◌≡◌, length};
ghost use Rattle.lookup.specs.Lookups.{as_lookups};
ghost use Rattle.wire.specs.inner.Place.{parts, five_ends, After};
ghost use Rattle.delmatik_bytes.specs.inner.Words.{lookups_in};

use lookup::table::LentLookups;
use wire::room::Ends;

// Their lists, one after the other from a place on; the names stand beside the room.
pub fn lookups_in<'a>(room: &'a [u32], from: usize, ends: Ends, names: &'a [u8]) -> LentLookups<'a>
    requires { After from ends (length room.now) }
    ensures { as_lookups result ≡ lookups_in names.now (parts room.now from (five_ends ends)) }
{
    LentLookups {
        records: &room[from..ends.first],
        names,
        tuples: &room[ends.first..ends.second],
        multiplicities: &room[ends.second..ends.third],
        flags: &room[ends.third..ends.fourth],
        elements: &room[ends.fourth..ends.fifth],
    }
}
