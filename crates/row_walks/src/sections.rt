// Rows that begin with a mark, which is no separator: the walks of the section motions of
// motions.rs. A walk goes from row start to row start, so that it reads the text once, whatever the
// count.
ghost use Rattle.std.specs.Prelude.{◌≡◌, ◌-◌};
ghost use Rattle.text.specs.Text.{last_row};
ghost use Rattle.row_walks.specs.Sections.{begins, section_up, section_down};
ghost use Rattle.row_walks.specs.Sections.{SectionReady, DownReady, LeadsTo};

use text::Line;
use text::offsets::{next_line, prev_line};

// Whether a row begins with x, which is no separator.
fn begins(t: &[u32], l: Line, x: u32) -> bool
    requires { SectionReady t.now l x }
    ensures { result ≡ begins t.now x l.row }
{
    let at = l.start;
    if at >= t.len() {
        return false;
    }
    t[at] == x
}

// The row of the n-th section up from `from`, or row 0.
pub fn section_up(t: &[u32], from: Line, x: u32, n: usize) -> usize
    requires { SectionReady t.now from x }
    ensures { LeadsTo t.now (section_up t.now x n from.row) result }
{
    let mut row = from.row;
    let mut start = from.start;
    let mut left = n;
    // A `while`: it steps from row to row, and the start goes with the row.
    while row > 0 {
        if left == 0 {
            return row;
        }
        let here = Line { row, start };
        let l = prev_line(t, here);
        if begins(t, l, x) {
            row = l.row;
            start = l.start;
            left -= 1;
        } else {
            row = l.row;
            start = l.start;
        }
    }
    row
}

// The row of the n-th section down from `from`, or `last`, the last row with content.
pub fn section_down(t: &[u32], from: Line, last: usize, x: u32, n: usize) -> usize
    requires { DownReady t.now from last x }
    ensures { LeadsTo t.now (section_down t.now x n from.row
        (last_row t.now - from.row)) result }
{
    let mut row = from.row;
    let mut start = from.start;
    let mut left = n;
    // A `while`: it steps from row to row, and the start goes with the row.
    while row < last {
        if left == 0 {
            return row;
        }
        let here = Line { row, start };
        let l = next_line(t, here);
        if begins(t, l, x) {
            row = l.row;
            start = l.start;
            left -= 1;
        } else {
            row = l.row;
            start = l.start;
        }
    }
    row
}
