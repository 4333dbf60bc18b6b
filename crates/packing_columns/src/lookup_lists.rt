// The parts of a table's lists that belong to its lookups, copied in another order.
ghost use Rattle.std.specs.Prelude.{◌≡◌, List, ℕ, ◌≤◌, length};
ghost use Rattle.lists.specs.Count.{total};
ghost use Rattle.expression.specs.Words.{word};
ghost use Rattle.lookup.specs.Lookups.{lookup_count};
ghost use Rattle.packing.specs.Written.{written};
ghost use Rattle.packing_columns.specs.inner.LookupLists.{list_start, list_length, list_parts};
ghost use Rattle.packing_columns.specs.inner.LookupListsRequires.{LookupNumbers, FewTuples};

use expression::words::to_usize;
use lookup::starts::{element_start, flag_start, multiplicity_start, name_start, tuple_start};

// Which of the lists of a table: each lookup has a part of it. Plain data and no closure, since the definitions tell the lists apart by it.
#[derive(Clone, Copy)]
pub enum LookupList {
    Names,
    Tuples,
    Multiplicities,
    Flags,
    Elements,
}

// Where the part of lookup i begins in that list.
fn list_start(list: LookupList, lookups: &[u32], tuples: &[u32], i: usize) -> usize
    requires { FewTuples lookups.now × (i ≤ lookup_count lookups.now) }
    ensures { (result ≡ list_start list lookups.now tuples.now i) × (result ≤ 274877906880) }
{
    match list {
        LookupList::Names => name_start(lookups, i),
        LookupList::Tuples => tuple_start(lookups, i),
        LookupList::Multiplicities => multiplicity_start(lookups, i),
        LookupList::Flags => flag_start(lookups, i),
        LookupList::Elements => element_start(tuples, tuple_start(lookups, i)),
    }
}

// How many words of that list these lookups have.
pub fn list_total(list: LookupList, lookups: &[u32], tuples: &[u32], order: &[u32]) -> usize
    requires { let is : List ℕ = order.now in FewTuples lookups.now × LookupNumbers (lookup_count lookups.now) is }
    ensures { let is : List ℕ = order.now in result ≡ total (λ t. list_length list lookups.now tuples.now (word is t)) (length is) }
{
    let mut sum: usize = 0;
    for t in 0..order.len() {
        let i = to_usize(order[t]);
        let start = list_start(list, lookups, tuples, i);
        let next = list_start(list, lookups, tuples, i + 1);
        sum += next - start;
    }
    sum
}

// The elements of src at the front of out. No `copy_from_slice`: for that an archive for C wants memmove, beside memcpy for this loop.
pub fn copy<T: Copy>(src: &[T], out: &mut [T])
    requires { length src.now ≤ length out.old }
    ensures { out.new ≡ written src.now out.old }
{
    for i in 0..src.len() {
        out[i] = src[i];
    }
}

// The parts of that list, src, of these lookups, one after the other, at the front of out.
pub fn write_list<T: Copy>(
    list: LookupList,
    lookups: &[u32],
    tuples: &[u32],
    order: &[u32],
    src: &[T],
    out: &mut [T],
)
    requires { let is : List ℕ = order.now in FewTuples lookups.now × LookupNumbers (lookup_count lookups.now) is
        × (list_start list lookups.now tuples.now (lookup_count lookups.now) ≤ length src.now) × (length (list_parts list lookups.now tuples.now src.now is) ≤ length out.old) }
    ensures { out.new ≡ written (list_parts list lookups.now tuples.now src.now order.now) out.old }
{
    let mut end: usize = 0;
    for t in 0..order.len() {
        let i = to_usize(order[t]);
        let start = list_start(list, lookups, tuples, i);
        let next = list_start(list, lookups, tuples, i + 1);
        let new_end = end + (next - start);
        copy(&src[start..next], &mut out[end..new_end]);
        end = new_end;
    }
}
