// One segment of a row: how long the first is, by characters what goes into the width and by words
// what stands there up to the last white space; and how one is written. From `wrap.rs`.
ghost use Rattle.std.specs.Prelude.{◌≡◌, ◌+◌, ◌≤◌, ◌<◌, length, set};
ghost use Rattle.chars.specs.White.{whites, is_white};
ghost use Rattle.chars.specs.Width.{Measures, width_with};
ghost use Rattle.row_segment.specs.Segments.{after_white, char_segment, first_segment, Begins};
ghost use Rattle.row_segment.specs.Lent.{Tables};

use chars::Measure;

// The place after the last white space among the first n characters, or 0 where there is none.
fn after_white(white: &[u32], row: &[u32], n: usize) -> usize
    requires { (white.now ≡ whites) × (n ≤ length row.now) }
    ensures { result ≡ after_white is_white row.now n }
{
    for b in (0..n).rev() {
        if chars::white_in(white, row[b]) {
            return b + 1;
        }
    }
    0
}

// How many characters of the row's start go into the width. One wider than the width is taken
// alone: without that the segment would be empty, and no walk would get past it.
fn char_segment(by: Measure<'_>, row: &[u32], width: u32) -> usize
    requires { Measures by × (0 < length row.now) }
    ensures { Begins row.now (char_segment
        (width_with by.entry) width row.now) result }
{
    let n = row_cells::fitting(by, row, width);
    if n == 0 {
        return 1;
    }
    n
}

// How many characters the first segment of a row has that is not empty; by words if `word` is set,
// else by characters. The row may be the rest of one: this is the step of a walk over segments.
pub fn first_segment(by: Measure<'_>, white: &[u32], row: &[u32], width: u32, word: bool) -> usize
    requires { Tables by white.now × (0 < length row.now) }
    ensures { Begins row.now (first_segment
        (width_with by.entry) is_white word width
        row.now) result }
{
    let n = char_segment(by, row, width);
    if !word {
        return n;
    }
    if n == row.len() {
        return n;
    }
    let k = after_white(white, row, n);
    if k == 0 {
        return n;
    }
    k
}

// Writes a segment to the places `at` and `at + 1` of the room.
pub fn put_segment(out: &mut [u32], at: usize, start: usize, end: usize)
    requires { (at + 2 ≤ length out.old) × ((start ≤ 1048576) × (end ≤ 1048576)) }
    ensures { out.new ≡ set (set out.old at start) (at + 1) end }
{
    out[at] = start as u32;
    out[at + 1] = end as u32;
}
