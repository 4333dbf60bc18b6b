// Packing of a table: the entry point.
ghost use Rattle.std.specs.Prelude.{◌≡◌, true, ◌≤◌};
ghost use Rattle.expression.specs.Limits.{Sane};
ghost use Rattle.lookup.specs.Lookups.{as_lookups, lent_lookups};
ghost use Rattle.lookup_degree.specs.Formed.{Formed};
ghost use Rattle.packing.specs.PackSameBus.{holds, packing, packing_at, in_numbers};
ghost use Rattle.packing_columns.specs.inner.Layout.{formed_outcome, ListsExact, PackSource, pack_source};

use expression::choices::{Choices, known, limits_of};
use expression::refusal::Refusal;
use expression::sizes::Limits;
use field::modulus::prime_of;
use lookup::refusals::{Columns, form_refusal};
use lookup::table::LentLookups;
use packing::answer::Counts;
use packing_columns::layout::{counts_hold, counts_of, plan_of, plan_refusal, write_all};

// Packing of a table that has none of refusals 1 to 5, into lists that hold it. Nothing is written before the last refusal is known.
fn pack_formed(
    limits: Limits,
    limit: u64,
    nodes: &[u32],
    lookups: &LentLookups,
    lookups_out: &mut [u32],
    names_out: &mut [u8],
    tuples_out: &mut [u32],
    multiplicities_out: &mut [u32],
    flags_out: &mut [u32],
    elements_out: &mut [u32],
) -> Result<Counts, Refusal>
    requires { let s : PackSource = pack_source nodes.now (as_lookups lookups.now)
        (lent_lookups lookups_out.old names_out.old tuples_out.old multiplicities_out.old flags_out.old elements_out.old) in Formed limits s.nodes s.own × ListsExact s.own.lookups s.own.names s.own.tuples × (holds s.lent s.own ≡ true) }
    ensures { let s : PackSource = pack_source nodes.now (as_lookups lookups.now)
        (lent_lookups lookups_out.old names_out.old tuples_out.old multiplicities_out.old flags_out.old elements_out.old) in (result ≡ (formed_outcome limit s.nodes s.own s.lent).answer)
        × (lent_lookups lookups_out.new names_out.new tuples_out.new multiplicities_out.new flags_out.new elements_out.new
        ≡ (formed_outcome limit s.nodes s.own s.lent).lists) }
{
    let plan = plan_of(limits, limit, nodes, lookups);
    let counts = counts_of(plan, lookups.records, lookups.tuples);
    plan_refusal(plan.over, lookups.records, lookups.names, lookups.tuples)?;
    write_all(
        plan,
        lookups,
        lookups_out,
        names_out,
        tuples_out,
        multiplicities_out,
        flags_out,
        elements_out,
    );
    Ok(counts)
}

// The answer within these limits, for words below p.
pub fn pack_within(
    limits: Limits,
    p: u32,
    limit: u64,
    columns: Columns,
    nodes: &[u32],
    lookups: &LentLookups,
    lookups_out: &mut [u32],
    names_out: &mut [u8],
    tuples_out: &mut [u32],
    multiplicities_out: &mut [u32],
    flags_out: &mut [u32],
    elements_out: &mut [u32],
) -> Result<Counts, Refusal>
    requires { Sane limits }
    ensures { let s : PackSource = pack_source nodes.now (as_lookups lookups.now)
        (lent_lookups lookups_out.old names_out.old tuples_out.old multiplicities_out.old flags_out.old elements_out.old) in (result ≡ (packing limits p limit columns s.nodes s.own s.lent).answer)
        × (lent_lookups lookups_out.new names_out.new tuples_out.new multiplicities_out.new flags_out.new elements_out.new
        ≡ (packing limits p limit columns s.nodes s.own s.lent).lists) }
{
    let own = Counts {
        lookups: lookups.records.len(),
        names: lookups.names.len(),
        tuples: lookups.tuples.len(),
        multiplicities: lookups.multiplicities.len(),
        flags: lookups.flags.len(),
        elements: lookups.elements.len(),
    };
    let lent = Counts {
        lookups: lookups_out.len(),
        names: names_out.len(),
        tuples: tuples_out.len(),
        multiplicities: multiplicities_out.len(),
        flags: flags_out.len(),
        elements: elements_out.len(),
    };
    if !counts_hold(own, lent) {
        return Err(Refusal::SizeAtOdds);
    }
    form_refusal(limits, p, columns, nodes, lookups)?;
    pack_formed(
        limits,
        limit,
        nodes,
        lookups,
        lookups_out,
        names_out,
        tuples_out,
        multiplicities_out,
        flags_out,
        elements_out,
    )
}

// Lookups of one bus share columns of at most this degree (`pack_same_bus`), at the choices of the call.
pub fn pack_same_bus(
    choices: Choices,
    limit: u64,
    columns: Columns,
    nodes: &[u32],
    lookups: &LentLookups,
    lookups_out: &mut [u32],
    names_out: &mut [u8],
    tuples_out: &mut [u32],
    multiplicities_out: &mut [u32],
    flags_out: &mut [u32],
    elements_out: &mut [u32],
) -> Result<Counts, Refusal>
    ensures { in_numbers (record {
      answer = result;
      lists = lent_lookups lookups_out.new names_out.new tuples_out.new
          multiplicities_out.new flags_out.new elements_out.new;
    })
        ≡ in_numbers (packing_at choices limit columns nodes.now (as_lookups lookups.now)
        (lent_lookups lookups_out.old names_out.old tuples_out.old multiplicities_out.old
        flags_out.old elements_out.old)) }
{
    if !known(choices) {
        return Err(Refusal::SizeAtOdds);
    }
    pack_within(
        limits_of(choices.profile),
        prime_of(choices.field),
        limit,
        columns,
        nodes,
        lookups,
        lookups_out,
        names_out,
        tuples_out,
        multiplicities_out,
        flags_out,
        elements_out,
    )
}
