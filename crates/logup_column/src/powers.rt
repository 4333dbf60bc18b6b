// The table of beta's powers: once for each call, for all lookups.
ghost use Rattle.std.specs.Prelude.{◌≡◌, ◌++◌, ◌≤◌, ◌+◌, ◌*◌, length, drop};
ghost use Rattle.lists.specs.Count.{joined};
ghost use Rattle.field.specs.Element.{power4, element};
ghost use Rattle.expression.specs.Requires.{Below};
ghost use Rattle.logup_column.specs.inner.Requires.{Field};

use crate::tuple;
use crate::tuple::POWERS_WORDS;
use field::extension;

// The powers of each lookup's beta.
pub fn write_table(p: u32, w: u32, challenges: &[u32], n: usize, table: &mut [u32])
    requires { Field p w × Below p challenges.now × (8 * n ≤ length challenges.now) × (32 * n ≤ length table.old) }
    ensures { table.new ≡ joined (λ i. joined (power4 p w (element challenges.now (2 * i + 1))) 0 8) 0 n ++ drop (32 * n) table.old }
{
    for i in 0..n {
        let beta = extension::load(challenges, 2 * i + 1);
        tuple::write_powers(
            p,
            w,
            beta,
            &mut table[POWERS_WORDS * i..POWERS_WORDS * i + POWERS_WORDS],
        );
    }
}
