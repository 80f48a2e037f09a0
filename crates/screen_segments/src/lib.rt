// The segments of one row, by their number: `segment_for_col` and `clamp_to_segment` as
// `step_screen` of motions.rs uses them, over the row itself and with no list of segments.

#![tactic(auto)]

ghost use Rattle.std.specs.Prelude.{◌≡◌, cond, ◌+◌, ◌-◌, ◌≤◌, ◌<◌, ltb};
ghost use Rattle.chars.specs.Width.{width_with};
ghost use Rattle.screen_segments.specs.Parts.{ahead_of, clamp_to};
ghost use Rattle.screen_segments.specs.Parts.{lay_of, Breaks, PartIs, CountIs};

use chars::Measure;

// A segment of a row: its number, and where it starts and ends in the row.
#[derive(Clone, Copy)]
pub struct Part {
    pub index: usize,
    pub start: usize,
    pub end: usize,
}

// The segment of a row that holds column `col`, or an earlier one that has the number `index`;
// past the row's end the last.
pub fn find_segment(
    by: Measure<'_>,
    white: &[u32],
    row: &[u32],
    width: u32,
    word: bool,
    col: usize,
    index: usize,
) -> Part
    requires { Breaks by white.now width }
    ensures { PartIs row.now
        (lay_of (width_with by.entry) word width row.now)
        col index result }
{
    let mut k: usize = 0;
    let mut start: usize = 0;
    // A `while`: the segments differ in length.
    while start < row.len() {
        let rest = &row[start..];
        let end = start + row_segment::first_segment(by, white, rest, width, word);
        if k == index {
            return Part {
                index: k,
                start: start,
                end: end,
            };
        }
        if col < end {
            return Part {
                index: k,
                start: start,
                end: end,
            };
        }
        if end == row.len() {
            return Part {
                index: k,
                start: start,
                end: end,
            };
        }
        k += 1;
        start = end;
    }
    Part {
        index: 0,
        start: 0,
        end: 0,
    }
}

// How many segments a row has.
pub fn segment_count(by: Measure<'_>, white: &[u32], row: &[u32], width: u32, word: bool) -> usize
    requires { Breaks by white.now width }
    ensures { CountIs
        (lay_of (width_with by.entry) word width row.now)
        result }
{
    let n = row.len();
    let last = find_segment(by, white, row, width, word, n, n);
    last.index + 1
}

// How many segments lie ahead of segment j, down or up; and so the segment that has so many ahead
// of it.
pub fn ahead_of(down: bool, count: usize, j: usize) -> usize
    requires { j < count }
    ensures { result ≡ ahead_of down count j }
{
    if down { count - 1 - j } else { j }
}

// The last column of a segment, or its start where it is empty.
fn last_of(start: usize, end: usize) -> usize
    ensures { result ≡ cond (ltb start end) (end - 1) start }
{
    if start < end { end - 1 } else { start }
}

// `clamp_to_segment`: so many characters behind the segment's start, within the segment and the
// row.
pub fn clamp_to_segment(start: usize, end: usize, offset: usize, len: usize) -> usize
    requires { start + offset ≤ 8589934592 }
    ensures { result ≡ clamp_to start end offset len }
{
    let line_max = len.saturating_sub(1);
    let seg_max = last_of(start, end);
    (start + offset)
        .min(seg_max)
        .min(line_max)
        .max(start.min(line_max))
}
