// The checks over several tables: the sum of their terminals, and the height bound.
ghost use Rattle.std.specs.Prelude.{◌≡◌, true, List, [], ℕ, ◌+◌, ◌*◌, ◌<◌, ◌≤◌, length};
ghost use Rattle.lists.specs.Count.{every};
ghost use Rattle.field.specs.inner.Requires.{KnownPrime};
ghost use Rattle.field.specs.Element.{Word4, is_zero};
ghost use Rattle.field.specs.Ext.{ext_words};
ghost use Rattle.expression.specs.Limits as Sizes;
ghost use Rattle.expression.specs.Words.{word};
ghost use Rattle.expression.specs.Refusal.{refusal, numbers};
ghost use Rattle.lookup.specs.Lookups.{lookup_count};
ghost use Rattle.lookup_protocol.specs.Height.{table_lookups, weight_sum, height_sum, lookups_small, tables_within, tables_fit, height_refusal, height_at};
ghost use Rattle.lookup_protocol.specs.inner.Requires.{LookupsCounted, FewWeights, HeightLists, height_lists};
ghost use Rattle.lookup_protocol.specs.Terminals.{terminal_words, terminal_count, present, terminal, terminal_below, with_terminal, terminal_sum, terminals_refusal, terminals_at};

use expression::choices::{Choices, known, limits_of};
use expression::refusal::Refusal;
use expression::sizes::Limits;
use expression::words::all_within;
use field::extension::{Ext, add};
use field::modulus::prime_of;
use lookup::sizes::{part_start, size};
use lookup::starts::tuple_start;
use lookup::tests::{all_agree, each_within};
use lookup::types::{LOOKUP_WORDS, LookupTerminal, weight};

// The words of a terminal: a mark, 0 where it is absent, and its element.
const TERMINAL_WORDS: usize = 5;

// A table has one size here, the number of its lookups.
const COUNT_SIZES: usize = 1;

const LOOKUP_COUNT_SIZE: usize = 0;

// Whether terminal i is there. No option of it: with a branch for an absent one the words of terminals are no longer tested several at a time.
fn present(terminals: &[u32], i: usize) -> bool
    requires { terminal_words * i + terminal_words ≤ length terminals.now }
    ensures { result ≡ present terminals.now i }
{
    !(terminals[TERMINAL_WORDS * i] == 0)
}

// The element of terminal i.
fn terminal(terminals: &[u32], i: usize) -> LookupTerminal
    requires { terminal_words * i + terminal_words ≤ length terminals.now }
    ensures { ext_words result.0 ≡ terminal terminals.now i }
{
    let at = TERMINAL_WORDS * i;
    LookupTerminal(Ext {
        c0: terminals[at + 1],
        c1: terminals[at + 2],
        c2: terminals[at + 3],
        c3: terminals[at + 4],
    })
}

// The words of terminal i are below p, if it is present.
fn terminal_below(p: u32, terminals: &[u32], i: usize) -> bool
    requires { terminal_words * i + terminal_words ≤ length terminals.now }
    ensures { result ≡ terminal_below p terminals.now i }
{
    let at = TERMINAL_WORDS * i;
    !present(terminals, i)
        | ((terminals[at + 1] < p)
            & (terminals[at + 2] < p)
            & (terminals[at + 3] < p)
            & (terminals[at + 4] < p))
}

// A flag, and no early return: that would be no shorter.
fn all_below(p: u32, terminals: &[u32]) -> bool
    ensures { let ts : List ℕ = terminals.now in result ≡ every (terminal_below p ts) (terminal_count ts) }
{
    let n = terminals.len() / TERMINAL_WORDS;
    let mut ok = true;
    for i in 0..n {
        ok &= terminal_below(p, terminals, i);
    }
    ok
}

// A sum with terminal i, if that is present.
fn with_terminal(p: u32, sum: Ext, terminals: &[u32], i: usize) -> Ext
    requires { KnownPrime p × Word4 p (ext_words sum) × (terminal_words * i + terminal_words ≤ length terminals.now) × (terminal_below p terminals.now i ≡ true) }
    ensures { Word4 p (ext_words result) × (ext_words result ≡ with_terminal p (ext_words sum) terminals.now i) }
{
    if present(terminals, i) {
        add(p, sum, terminal(terminals, i).0)
    } else {
        sum
    }
}

fn terminal_sum(p: u32, terminals: &[u32]) -> Ext
    requires { let ts : List ℕ = terminals.now in KnownPrime p × (every (terminal_below p ts) (terminal_count ts) ≡ true) }
    ensures { let ts : List ℕ = terminals.now in ext_words result ≡ terminal_sum p ts (terminal_count ts) }
{
    let n = terminals.len() / TERMINAL_WORDS;
    let mut sum = Ext::ZERO;
    for i in 0..n {
        sum = with_terminal(p, sum, terminals, i);
    }
    sum
}

// Whether the sum is zero. Not `is_zero` of field, whose `==` looks at one word after the other: then the words are added one by one too, in 1.44 of the time.
fn cancels(sum: Ext) -> bool
    ensures { result ≡ is_zero (ext_words sum) }
{
    (sum.c0 == 0) & (sum.c1 == 0) & (sum.c2 == 0) & (sum.c3 == 0)
}

pub fn terminals_refusal(limits: Limits, p: u32, terminals: &[u32]) -> Result<(), Refusal>
    requires { KnownPrime p }
    ensures { refusal result ≡ terminals_refusal limits p terminals.now }
{
    let whole = terminals.len() % TERMINAL_WORDS == 0;
    let few = terminals.len() / TERMINAL_WORDS <= limits.tables;
    if !(whole & few) {
        return Err(Refusal::SizeAtOdds);
    }
    if !all_below(p, terminals) {
        return Err(Refusal::WordTooLarge);
    }
    if cancels(terminal_sum(p, terminals)) {
        Ok(())
    } else {
        Err(Refusal::TerminalsNotZero)
    }
}

// The terminals of a batch cancel, at the choices of the call.
pub fn verify_terminal_sum(choices: Choices, terminals: &[u32]) -> Result<(), Refusal>
    ensures { numbers (refusal result) ≡ numbers (terminals_at choices terminals.now) }
{
    if !known(choices) {
        return Err(Refusal::SizeAtOdds);
    }
    let limits = limits_of(choices.profile);
    terminals_refusal(limits, prime_of(choices.field), terminals)
}

// The words of one table's lookups show no size over a limit.
fn lookups_small(limits: Limits, lookups: &[u32]) -> bool
    requires { lookup_count lookups.now ≤ 64 }
    ensures { result ≡ lookups_small limits lookups.now }
{
    (tuple_start(lookups, lookups.len() / LOOKUP_WORDS) <= limits.tuples)
        & each_within(limits, lookups)
}

fn tables_within(limits: Limits, counts: &[u32], heights: &[u32]) -> bool
    requires { Sizes.Sane limits }
    ensures { result ≡ tables_within limits counts.now heights.now }
{
    (counts.len() <= limits.tables)
        & (heights.len() == counts.len())
        & all_within(limits.lookups as u32, counts)
        & all_within(limits.height as u32, heights)
}

// Each table's lookups show no size over a limit.
fn all_small(limits: Limits, lookups: &[u32], counts: &[u32]) -> bool
    requires { let l : HeightLists = height_lists lookups.now counts.now [] in LookupsCounted l.lookups l.counts }
    ensures { let l : HeightLists = height_lists lookups.now counts.now [] in result ≡ every (λ t. lookups_small limits (table_lookups l.lookups l.counts t)) (length l.counts) }
{
    let mut ok = true;
    let mut at: usize = 0;
    for t in 0..counts.len() {
        let end = at + LOOKUP_WORDS * size(counts, COUNT_SIZES, LOOKUP_COUNT_SIZE, t);
        ok &= lookups_small(limits, &lookups[at..end]);
        at = end;
    }
    ok
}

fn tables_fit(limits: Limits, lookups: &[u32], counts: &[u32], heights: &[u32]) -> bool
    requires { Sizes.Sane limits }
    ensures { result ≡ tables_fit limits lookups.now counts.now heights.now }
{
    if !tables_within(limits, counts, heights) {
        return false;
    }
    let words = part_start(
        counts,
        COUNT_SIZES,
        LOOKUP_COUNT_SIZE,
        LOOKUP_WORDS,
        counts.len(),
    );
    if lookups.len() != words {
        return false;
    }
    all_small(limits, lookups, counts)
}

// The weights of one table: at most 2^32 - 1 for each of 64 lookups, and again for each of 64 tuples.
fn weight_sum(lookups: &[u32]) -> u64
    requires { let l : List ℕ = lookups.now in FewWeights l }
    ensures { let l : List ℕ = lookups.now in (result ≡ weight_sum l) × (result ≤ 549755813760) }
{
    let n = lookups.len() / LOOKUP_WORDS;
    let mut sum: u64 = 0;
    for i in 0..n {
        sum += weight(lookups, i);
    }
    sum
}

// What one table adds. Sixteen such stay below 2^63.
fn table_weight(lookups: &[u32], height: u32) -> u64
    requires { FewWeights lookups.now × (height ≤ 1048576) }
    ensures { (result ≡ weight_sum lookups.now * height) × (result ≤ 576460752169205760) }
{
    weight_sum(lookups) * u64::from(height)
}

// A walk of its own over the tables: the sum fits because every table has passed `all_small` by then.
fn height_sum(lookups: &[u32], counts: &[u32], heights: &[u32]) -> u64
    requires lookups_counted { let l : HeightLists = height_lists lookups.now counts.now heights.now in LookupsCounted l.lookups l.counts × ((t : ℕ) → t < length l.counts → FewWeights (table_lookups l.lookups l.counts t)) }
    requires heights_len { let l : HeightLists = height_lists lookups.now counts.now heights.now in (length l.heights ≡ length l.counts) × ((t : ℕ) → word l.heights t ≤ 1048576) }
    ensures { let l : HeightLists = height_lists lookups.now counts.now heights.now in result ≡ height_sum l.lookups l.counts l.heights }
{
    let mut sum: u64 = 0;
    let mut at: usize = 0;
    for t in 0..counts.len() {
        let end = at + LOOKUP_WORDS * size(counts, COUNT_SIZES, LOOKUP_COUNT_SIZE, t);
        sum += table_weight(&lookups[at..end], heights[t]);
        at = end;
    }
    sum
}

pub fn height_refusal(
    limits: Limits,
    p: u32,
    lookups: &[u32],
    counts: &[u32],
    heights: &[u32],
) -> Result<(), Refusal>
    requires { Sizes.Sane limits }
    ensures { refusal result ≡ height_refusal limits p lookups.now counts.now heights.now }
{
    if !tables_fit(limits, lookups, counts, heights) {
        return Err(Refusal::SizeAtOdds);
    }
    if !all_agree(lookups) {
        return Err(Refusal::LookupInvalid);
    }
    let sum = height_sum(lookups, counts, heights);
    if sum < u64::from(p) {
        Ok(())
    } else {
        Err(Refusal::HeightSumTooLarge(sum))
    }
}

// The height bound, at the choices of the call.
pub fn check_multiplicity_height_bound(
    choices: Choices,
    lookups: &[u32],
    counts: &[u32],
    heights: &[u32],
) -> Result<(), Refusal>
    ensures { numbers (refusal result)
        ≡ numbers (height_at choices lookups.now counts.now heights.now) }
{
    if !known(choices) {
        return Err(Refusal::SizeAtOdds);
    }
    let limits = limits_of(choices.profile);
    height_refusal(limits, prime_of(choices.field), lookups, counts, heights)
}
