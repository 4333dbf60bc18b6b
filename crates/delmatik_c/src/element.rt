// Powers and inverses of one extension element, for callers that hold four words.
ghost use Rattle.std.specs.Prelude.{◌≡◌};
ghost use Rattle.delmatik_answers.specs.Element.{exported_power, exported_inverse};

// a to the power n.
#[unsafe(no_mangle)]
pub extern "C" fn delmatik_power(field: u32, a: &[u32], n: u32, out: &mut [u32]) -> u32
    ensures { record { number = result; out = out.new } ≡ exported_power field a.now n out.old }
{
    delmatik::element::delmatik_power(field, a, n, out)
}

// 1 ÷ a, and 0 where a is 0.
#[unsafe(no_mangle)]
pub extern "C" fn delmatik_inverse(field: u32, a: &[u32], out: &mut [u32]) -> u32
    ensures { record { number = result; out = out.new } ≡ exported_inverse field a.now out.old }
{
    delmatik::element::delmatik_inverse(field, a, out)
}
