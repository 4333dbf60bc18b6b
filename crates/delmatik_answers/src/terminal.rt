// A terminal from a mark and four words.
ghost use Rattle.std.specs.Prelude.{◌≡◌};
ghost use Rattle.logup_constraints.specs.Refusals.{terminal_of};
ghost use Rattle.delmatik_answers.specs.Constraints.{marked_terminal};

use field::extension::Ext;
use lookup::types::LookupTerminal;

pub fn marked_terminal(mark: u32, c0: u32, c1: u32, c2: u32, c3: u32) -> Option<LookupTerminal>
    ensures { terminal_of result ≡ marked_terminal mark c0 c1 c2 c3 }
{
    if mark == 0 {
        return None;
    }
    Some(LookupTerminal(Ext { c0, c1, c2, c3 }))
}
