// The window on a trace: the current row, and the row at an offset from it.
ghost use Rattle.std.specs.Prelude.{◌≡◌, ◌+◌, ◌*◌, ◌<◌, ◌≤◌, ◌%◌, length};
ghost use Rattle.expression.specs.Words.{word};
ghost use Rattle.expression.specs.Window.{row_of};
ghost use Rattle.expression_eval.specs.inner.Window.{rows_ahead, at_offset};

// Row r of a trace, as the part of it that is lent.
#[tactic(auto, unfolding(expression::specs::Window::row_of))]
pub fn row_of(s: &[u32], width: usize, height: usize, r: usize) -> &[u32]
    requires { (r < height) × (width * height ≤ length s.now) }
    ensures { result.now ≡ row_of s.now width r }
{
    let start = r * width;
    &s[start..start + width]
}

// The row after row r: row 0 after the last.
pub fn next_row(r: usize, height: usize) -> usize
    requires { r < height }
    ensures { (result < height) × (result ≡ (r + 1) % height) }
{
    if r + 1 < height { r + 1 } else { 0 }
}

// The numbers of the rows at the offsets 0 to 3 from row r. They are made once a row: a node takes its own by its offset.
pub fn rows_ahead(r: usize, height: usize) -> [usize; 4]
    requires { r < height }
    ensures { result ≡ rows_ahead r height }
{
    let next = next_row(r, height);
    let second = next_row(next, height);
    let third = next_row(second, height);
    [r, next, second, third]
}

// The current row on top of the row at an offset.
#[derive(Clone, Copy)]
pub struct VerticalPair<'a> {
    pub top: &'a [u32],
    pub bottom: &'a [u32],
}

impl<'a> VerticalPair<'a> {
    // Word a of the row at an offset, 0 the current row.
    pub fn at_offset(self, o: u32, a: u32) -> u32
        requires { (a < length self.top.now) × (a < length self.bottom.now) }
        ensures { result ≡ word (at_offset self.entry.top.now self.entry.bottom.now o) a }
    {
        if o == 0 {
            self.top[a as usize]
        } else {
            self.bottom[a as usize]
        }
    }
}

// Word a of the row at an offset from row r of a trace, which is row `ahead`: the window on the two is held here.
pub fn read<'a>(
    s: &'a [u32],
    width: usize,
    height: usize,
    r: usize,
    ahead: usize,
    o: u32,
    a: u32,
) -> u32
    requires { (r < height) × (ahead < height) × (ahead ≡ (r + o) % height) × (width * height ≤ length s.now) × (a < width) }
    ensures { result ≡ word (row_of s.now width ((r + o) % height)) a }
{
    let window = VerticalPair {
        top: row_of(s, width, height, r),
        bottom: row_of(s, width, height, ahead),
    };
    window.at_offset(o, a)
}
