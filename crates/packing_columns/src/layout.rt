// The packed table, laid out from the plan and the table's own lists.
ghost use Rattle.std.specs.Prelude.{◌≡◌};
ghost use Rattle.expression.specs.Refusal.{refusal};
ghost use Rattle.lookup.specs.Lookups.{Lookups, as_lookups, lent_lookups, bus_lookups};
ghost use Rattle.lookup_degree.specs.Formed.{Formed};
ghost use Rattle.lookup_buses.specs.Widths.{widths_refusal};
ghost use Rattle.packing.specs.PackSameBus.{single_table, all_written};
ghost use Rattle.packing_columns.specs.inner.Layout.{plan_words, plan_counts, counts_hold, plan_refusal, PlanNumbers, Layout, ListsExact, PackLists, pack_lists, OutputsHold};

use crate::columns::{Plan, make_plan};
use crate::lookup_lists::{LookupList, copy, list_total, write_list};
use expression::node::NODE_WORDS;
use expression::refusal::Refusal;
use expression::sizes::Limits;
use expression_checks::degrees::fill_degrees;
use lookup::table::LentLookups;
use lookup::types::LOOKUP_WORDS;
use lookup_buses::tables::bus_widths;
use lookup_degree::tuples::tuple_degrees;
use packing::answer::Counts;

// The plan of a table that passed the tests, at t = 0.
pub fn plan_of(limits: Limits, limit: u64, nodes: &[u32], lookups: &LentLookups) -> Plan
    requires { Formed limits nodes.now (as_lookups lookups.now) }
    ensures { Layout limit nodes.now (as_lookups lookups.now) result }
{
    let mut of_nodes = [0u32; 1024];
    let _low = fill_degrees(
        0,
        limits.degree,
        nodes.len() / NODE_WORDS,
        nodes,
        &mut of_nodes,
    );
    let of_tuples = tuple_degrees(&of_nodes, lookups.tuples, lookups.elements);
    make_plan(
        &of_nodes,
        &of_tuples,
        lookups.records,
        lookups.names,
        lookups.multiplicities,
        limit,
    )
}

// How many words each list gets.
pub fn counts_of(plan: Plan, lookups: &[u32], tuples: &[u32]) -> Counts
    requires { PlanNumbers plan lookups.now }
    ensures { result ≡ plan_counts plan lookups.now tuples.now }
{
    let n = lookups.len() / LOOKUP_WORDS;
    Counts {
        lookups: LOOKUP_WORDS * plan.columns,
        names: list_total(
            LookupList::Names,
            lookups,
            tuples,
            &plan.heads[0..plan.columns],
        ),
        tuples: list_total(LookupList::Tuples, lookups, tuples, &plan.order[0..n]),
        multiplicities: list_total(
            LookupList::Multiplicities,
            lookups,
            tuples,
            &plan.order[0..n],
        ),
        flags: list_total(LookupList::Flags, lookups, tuples, &plan.order[0..n]),
        elements: list_total(LookupList::Elements, lookups, tuples, &plan.order[0..n]),
    }
}

// No lent list is shorter than the table's own.
pub fn counts_hold(own: Counts, lent: Counts) -> bool
    ensures { result ≡ counts_hold own lent }
{
    (own.lookups <= lent.lookups)
        & (own.names <= lent.names)
        & (own.tuples <= lent.tuples)
        & (own.multiplicities <= lent.multiplicities)
        & (own.flags <= lent.flags)
        & (own.elements <= lent.elements)
}

// Refusal 6 of one table.
fn table_widths(lookups: &[u32], names: &[u8], tuples: &[u32]) -> Result<(), Refusal>
    requires { let l : Lookups = bus_lookups lookups.now names.now tuples.now in ListsExact l.lookups l.names l.tuples }
    ensures { let l : Lookups = bus_lookups lookups.now names.now tuples.now in refusal result ≡ widths_refusal (single_table l) }
{
    let sizes = [
        (lookups.len() / LOOKUP_WORDS) as u32,
        names.len() as u32,
        tuples.len() as u32,
    ];
    bus_widths(lookups, names, tuples, &sizes)
}

// The refusals after 1 to 5: 6 and 7.
pub fn plan_refusal(
    over: bool,
    lookups: &[u32],
    names: &[u8],
    tuples: &[u32],
) -> Result<(), Refusal>
    requires { let l : Lookups = bus_lookups lookups.now names.now tuples.now in ListsExact l.lookups l.names l.tuples }
    ensures { let l : Lookups = bus_lookups lookups.now names.now tuples.now in refusal result ≡ plan_refusal over l.lookups l.names l.tuples }
{
    table_widths(lookups, names, tuples)?;
    if over {
        Err(Refusal::WeightTooLarge)
    } else {
        Ok(())
    }
}

// The words of the packed table at the front of the lent lists.
pub fn write_all(
    plan: Plan,
    lookups: &LentLookups,
    lookups_out: &mut [u32],
    names_out: &mut [u8],
    tuples_out: &mut [u32],
    multiplicities_out: &mut [u32],
    flags_out: &mut [u32],
    elements_out: &mut [u32],
)
    requires { let s : PackLists = pack_lists (as_lookups lookups.now)
        (lent_lookups lookups_out.old names_out.old tuples_out.old multiplicities_out.old flags_out.old elements_out.old) in OutputsHold plan s.own s.lent }
    ensures { let s : PackLists = pack_lists (as_lookups lookups.now)
        (lent_lookups lookups_out.old names_out.old tuples_out.old multiplicities_out.old flags_out.old elements_out.old) in lent_lookups lookups_out.new names_out.new tuples_out.new multiplicities_out.new flags_out.new elements_out.new
        ≡ all_written (plan_words plan s.own) s.lent }
{
    let n = lookups.records.len() / LOOKUP_WORDS;
    copy(&plan.words[0..LOOKUP_WORDS * plan.columns], lookups_out);
    write_list(
        LookupList::Names,
        lookups.records,
        &[],
        &plan.heads[0..plan.columns],
        lookups.names,
        names_out,
    );
    write_list(
        LookupList::Tuples,
        lookups.records,
        lookups.tuples,
        &plan.order[0..n],
        lookups.tuples,
        tuples_out,
    );
    write_list(
        LookupList::Multiplicities,
        lookups.records,
        lookups.tuples,
        &plan.order[0..n],
        lookups.multiplicities,
        multiplicities_out,
    );
    write_list(
        LookupList::Flags,
        lookups.records,
        lookups.tuples,
        &plan.order[0..n],
        lookups.flags,
        flags_out,
    );
    write_list(
        LookupList::Elements,
        lookups.records,
        lookups.tuples,
        &plan.order[0..n],
        lookups.elements,
        elements_out,
    );
}
