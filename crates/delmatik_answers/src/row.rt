// A row as a part of a trace.
ghost use Rattle.std.specs.Prelude.{◌≡◌, ◌*◌, ◌≤◌, length};
ghost use Rattle.delmatik_answers.specs.Row.{start_and_length};

// Where row r begins in a trace, and how many words it has, from its words.
pub fn write_part(words: &[u32], r: u64, out: &mut [u64; 2])
    requires { r * length words.now ≤ 18446744073709551615 }
    ensures { out.new ≡ start_and_length r (length words.now) }
{
    let n = words.len() as u64;
    *out = [r * n, n];
}
