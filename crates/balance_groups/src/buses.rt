// Which lookups are in one group, the lists of all tables taken as one.
ghost use Rattle.std.specs.Prelude.{◌≡◌, ◌<◌, ◌≤◌};
ghost use Rattle.lookup.specs.Lookups.{lookup_count, name_start};
ghost use Rattle.balance_groups.specs.inner.ByNumber.{GroupNames, same_group, first_of_bus, starts_group};

use lookup::buses::same_bytes;
use lookup::starts::name_start;
use lookup::types::{name_length, on_bus};

// Whether lookup k, whose name begins at `name_k`, is in the group of lookup m, whose name begins at `name_m`.
pub fn same_group(
    lookups: &[u32],
    names: &[u8],
    m: usize,
    name_m: usize,
    k: usize,
    name_k: usize,
) -> bool
    requires { GroupNames lookups.now names.now × (m < lookup_count lookups.now) × (k < lookup_count lookups.now) × (name_m ≡ name_start lookups.now m) × (name_k ≡ name_start lookups.now k) × (name_m ≤ 4398046511104) × (name_k ≤ 4398046511104) }
    ensures { result ≡ same_group lookups.now names.now m k }
{
    if !on_bus(lookups, m) {
        return m == k;
    }
    if !on_bus(lookups, k) {
        return false;
    }
    let end_m = name_m + name_length(lookups, m) as usize;
    let end_k = name_k + name_length(lookups, k) as usize;
    same_bytes(&names[name_m..end_m], &names[name_k..end_k])
}

// Whether no lookup before m is in its group.
fn first_of_bus(lookups: &[u32], names: &[u8], m: usize) -> bool
    requires { GroupNames lookups.now names.now × (m < lookup_count lookups.now) }
    ensures { result ≡ first_of_bus lookups.now names.now m }
{
    let name_m = name_start(lookups, m);
    let mut at: usize = 0;
    for k in 0..m {
        if same_group(lookups, names, m, name_m, k, at) {
            return false;
        }
        at += name_length(lookups, k) as usize;
    }
    true
}

// Whether a group begins with lookup m, among the locals or among the buses.
pub fn starts_group(lookups: &[u32], names: &[u8], buses: bool, m: usize) -> bool
    requires { GroupNames lookups.now names.now × (m < lookup_count lookups.now) }
    ensures { result ≡ starts_group lookups.now names.now buses m }
{
    if buses {
        return on_bus(lookups, m) & first_of_bus(lookups, names, m);
    }
    !on_bus(lookups, m)
}
