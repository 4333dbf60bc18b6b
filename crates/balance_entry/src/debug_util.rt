// `check_lookups`: whether every group of lookups is balanced over all tables.
ghost use Rattle.std.specs.Prelude.{◌≡◌};
ghost use Rattle.field.specs.inner.Requires.{KnownPrime};
ghost use Rattle.expression.specs.Limits.{Sane};
ghost use Rattle.expression.specs.Refusal.{refusal};
ghost use Rattle.balance.specs.Balance.{check, check_at, in_numbers};
ghost use Rattle.balance.specs.Tables.{as_tables};

use balance::tables::LentTables;
use balance_groups::check::check_groups;
use balance_groups::tests::{lists_fit, tables_verdict};
use balance_slots::hash::{Seed, seed_of};
use expression::choices::{Choices, known, limits_of};
use expression::refusal::Refusal;
use expression::sizes::Limits;
use field::modulus::prime_of;

// The answer within these limits, modulo p.
pub fn check_within(
    limits: Limits,
    p: u32,
    tables: &LentTables,
    seed: Seed,
    workspace: &mut [u32],
) -> Result<(), Refusal>
    requires { Sane limits × KnownPrime p }
    ensures { record { refusal = refusal result; workspace = workspace.new } ≡ check limits p (as_tables tables.now) workspace.old }
{
    if !lists_fit(limits, tables) {
        return Err(Refusal::SizeAtOdds);
    }
    tables_verdict(limits, p, tables)?;
    match check_groups(p, tables, seed, workspace) {
        Ok(_) => Ok(()),
        Err(f) => Err(f.refusal),
    }
}

// Several tables, one after the other in each list; `tables.sizes` has fourteen words for each of them: main width, height,
// preprocessed width, preprocessed height, then how many main words, preprocessed words, public values, nodes, lookups,
// bytes of names, tuples, multiplicities, flags and elements it has. A slot of the workspace has ten words. The seed is any number,
// drawn where traces come from others: it decides in which chain a tuple is searched. `check_at`, the right side of the contract, takes
// no seed: so it changes the time and never the answer.
pub fn check_lookups(
    choices: Choices,
    tables: &LentTables,
    seed: u64,
    workspace: &mut [u32],
) -> Result<(), Refusal>
    ensures { in_numbers (record { refusal = refusal result; workspace = workspace.new })
        ≡ in_numbers (check_at choices (as_tables tables.now) workspace.old) }
{
    if !known(choices) {
        return Err(Refusal::SizeAtOdds);
    }
    check_within(
        limits_of(choices.profile),
        prime_of(choices.field),
        tables,
        seed_of(seed),
        workspace,
    )
}
