// What a text is: its rows, and the rows with content. From document 01, "Text, rows, carets", and
// `content_row_count` of motions.rs.

#![tactic(auto)]

ghost use Rattle.std.specs.Prelude.{◌≡◌, ◌+◌, ◌-◌, ◌≤◌, min, max, length};
ghost use Rattle.text.specs.Text.{row_count, Separators, content_rows, content_row_count};

pub mod offsets;

// A row, and the offset at which it starts.
#[derive(Clone, Copy)]
pub struct Line {
    pub row: usize,
    pub start: usize,
}

// A row, and a column in it, which may be the row's character count.
#[derive(Clone, Copy)]
pub struct Position {
    pub row: usize,
    pub col: usize,
}

// The rows of a text with content, or the number that the text is refused with.
#[derive(Clone, Copy)]
pub enum Counted {
    Rows(u32),
    Refused(u32),
}

// How many code points are passed over at a time where their separators alone count.
const STRETCH: usize = 256;

// How many separators a stretch has. It counts in 32 bits, as wide as a code point, and leaves its
// loop by the end alone, so that the compiler reads and counts many code points at a time.
fn few(part: &[u32]) -> u32
    requires { length part.now ≤ 1048576 }
    ensures { Separators part.now result }
{
    let mut n: u32 = 0;
    for x in part {
        if *x == 10 {
            n += 1;
        }
    }
    n
}

// How many separators a part of a text has, stretch by stretch.
pub fn separators(part: &[u32]) -> usize
    ensures { Separators part.now result }
{
    let stretches = part.chunks_exact(STRETCH);
    let last = stretches.remainder();
    let mut n: usize = 0;
    for stretch in stretches {
        n += few(stretch) as usize;
    }
    n + few(last) as usize
}

// How many rows a text has: one more than its separators.
pub fn row_count(t: &[u32]) -> usize
    ensures { result ≡ row_count t.now }
{
    separators(t) + 1
}

// How many rows have content in a text of so many rows: all but an empty last row that isn't row 0.
pub fn content_of(t: &[u32], rows: usize) -> usize
    requires { rows ≡ row_count t.now }
    ensures { result ≡ content_rows t.now }
{
    let len = t.len();
    if len == 0 {
        return rows;
    }
    let last = len - 1;
    if t[last] == 10 { rows - 1 } else { rows }
}

// The same, with the rows counted first.
pub fn content_rows(t: &[u32]) -> usize
    ensures { result ≡ content_rows t.now }
{
    content_of(t, row_count(t))
}

// `content_row_count` of the Rust, with the refusals of a text.
pub fn content_row_count(t: &[u32]) -> Counted
    ensures { result ≡ content_row_count t.now }
{
    let f = text_check::text_refusal(t);
    if f != 0 {
        return Counted::Refused(f);
    }
    let n = content_rows(t);
    Counted::Rows(n as u32)
}
