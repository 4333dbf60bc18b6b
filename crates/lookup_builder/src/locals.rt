// Refusal 6 of the locals that are built.
ghost use Rattle.std.specs.Prelude.{◌≡◌, [], ◌<◌, ◌≤◌, length};
ghost use Rattle.expression.specs.Refusal.{refusal};
ghost use Rattle.lookup.specs.Lookups.{Lookups, bus_lookups, lookup_count, tuple_start};
ghost use Rattle.lookup_builder.specs.Building.{local_refusal, locals_refusal};

use expression::refusal::Refusal;
use lookup::starts::tuple_start;
use lookup::types::tuple_count;
use lookup_buses::lookup_widths::tuples_verdict;

// The tuples of lookup i are as wide as its first.
fn local_verdict(lookups: &[u32], tuples: &[u32], i: usize) -> Result<(), Refusal>
    requires { let l : Lookups = bus_lookups lookups.now [] tuples.now in (lookup_count l.lookups ≤ 64) × (i < lookup_count l.lookups) × (tuple_start l.lookups (lookup_count l.lookups) ≤ length l.tuples) }
    ensures { let l : Lookups = bus_lookups lookups.now [] tuples.now in refusal result ≡ local_refusal l.lookups l.tuples i }
{
    if tuple_count(lookups, i) == 0 {
        return Ok(());
    }
    let width = tuples[tuple_start(lookups, i)];
    tuples_verdict(Some(width), lookups, tuples, i)
}

// So of each of the first n lookups.
pub fn locals_verdict(n: usize, lookups: &[u32], tuples: &[u32]) -> Result<(), Refusal>
    requires { let l : Lookups = bus_lookups lookups.now [] tuples.now in (lookup_count l.lookups ≤ 64) × (n ≤ lookup_count l.lookups) × (tuple_start l.lookups (lookup_count l.lookups) ≤ length l.tuples) }
    ensures { let l : Lookups = bus_lookups lookups.now [] tuples.now in refusal result ≡ locals_refusal n l.lookups l.tuples }
{
    for i in 0..n {
        local_verdict(lookups, tuples, i)?;
    }
    Ok(())
}
