// Rows and offsets: walks from row to row, the ends of a row, a row as a part of the text, and
// where an offset stands.
// From document 01, "Text, rows, carets"; the Rust asks its rope for these.
ghost use Rattle.std.specs.Prelude.{◌≡◌, ◌+◌, ◌-◌, ◌≤◌, ◌<◌, length};
ghost use Rattle.text.specs.Text.{row_count, row_at, row_len};
ghost use Rattle.text.specs.Offsets.{row_start, Stands, IsLine, line_at, Reached, EndsAt};
ghost use Rattle.text.specs.Offsets.{row_of};

use crate::{Line, STRETCH, row_count, separators};

// Row `to`, which lies below row `row`, by a walk from the offset `at` of that one; or the last row
// where the text has no row `to`.
fn walk_down(t: &[u32], row: usize, at: usize, to: usize) -> Line
    requires { Stands t.now row (row_start t.now row) at × (row < to) }
    ensures { Reached t.now to result }
{
    let mut r = row;
    for i in at..t.len() {
        if t[i] == 10 {
            r += 1;
            if r == to {
                return Line {
                    row: r,
                    start: i + 1,
                };
            }
        }
    }
    Line {
        row: r,
        start: t.len(),
    }
}

// The same. Stretches that end before that row are counted and not walked.
fn below(t: &[u32], row: usize, at: usize, to: usize) -> Line
    requires { Stands t.now row (row_start t.now row) at × (row < to) }
    ensures { Reached t.now to result }
{
    let mut r = row;
    let mut i = at;
    // A `while`: where a stretch begins is what the walk goes on from.
    while t.len() - i >= STRETCH {
        let end = i + STRETCH;
        let s = separators(&t[i..end]);
        if r + s >= to {
            return walk_down(t, r, i, to);
        }
        r += s;
        i = end;
    }
    walk_down(t, r, i, to)
}

// Row `to`, sought from the top; its number is less than `to` where the text has no such row.
pub fn reach(t: &[u32], to: usize) -> Line
    ensures { Reached t.now to result }
{
    if to == 0 {
        return Line { row: 0, start: 0 };
    }
    below(t, 0, 0, to)
}

// How many rows the text has: those above a row, and those from it on.
pub fn rows_from(t: &[u32], l: Line) -> usize
    requires { IsLine t.now l }
    ensures { result ≡ row_count t.now }
{
    let row = l.row;
    let s = l.start;
    let e = t.len();
    row + row_count(&t[s..e])
}

// The row n rows below `from`.
pub fn down(t: &[u32], from: Line, n: usize) -> Line
    requires { IsLine t.now from × (from.row + n < row_count t.now) }
    ensures { result ≡ line_at t.now (from.row + n) }
{
    if n == 0 {
        return from;
    }
    below(t, from.row, from.start, from.row + n)
}

// The row n rows above row `row`, or row 0 where there are fewer: a walk back from the offset `at`
// of that one.
fn walk_up(t: &[u32], row: usize, at: usize, n: usize) -> Line
    requires { Stands t.now row (row_start t.now row) at }
    ensures { result ≡ line_at t.now (row - n) }
{
    let mut r = row;
    let mut left = n;
    for b in (0..at).rev() {
        if t[b] == 10 {
            if left == 0 {
                return Line {
                    row: r,
                    start: b + 1,
                };
            }
            r -= 1;
            left -= 1;
        }
    }
    Line { row: 0, start: 0 }
}

// The row n rows above row `row`, which has the offset `at`, or row 0 where there are fewer.
// With n = 0 the row itself, found from any of its offsets. Stretches behind it are counted and not
// walked.
pub fn up(t: &[u32], row: usize, at: usize, n: usize) -> Line
    requires { Stands t.now row (row_start t.now row) at }
    ensures { result ≡ line_at t.now (row - n) }
{
    let mut r = row;
    let mut left = n;
    let mut i = at;
    // A `while`: where a stretch ends is what the walk goes on from.
    while i >= STRETCH {
        let b = i - STRETCH;
        let s = separators(&t[b..i]);
        if s > left {
            return walk_up(t, r, i, left);
        }
        r -= s;
        left -= s;
        i = b;
    }
    walk_up(t, r, i, left)
}

// The row below a row, and the row above it: what walks from row to row go by. They read that row
// alone, however short it is.
pub fn next_line(t: &[u32], l: Line) -> Line
    requires { IsLine t.now l × (l.row + 1 < row_count t.now) }
    ensures { result ≡ line_at t.now (l.row + 1) }
{
    let row = l.row;
    let end = row_end(t, l.start);
    Line {
        row: row + 1,
        start: end + 1,
    }
}

// The row before a row; of the first, the first itself.
pub fn prev_line(t: &[u32], l: Line) -> Line
    requires { IsLine t.now l }
    ensures { result ≡ line_at t.now (l.row - 1) }
{
    walk_up(t, l.row, l.start, 1)
}

// Row `to` of a text of so many rows, sought from `from` or from the nearer end of the text: from
// whichever has fewer rows between.
pub fn line_from(t: &[u32], rows: usize, from: Line, to: usize) -> Line
    requires { IsLine t.now from × (rows ≡ row_count t.now) × (to < rows) }
    ensures { result ≡ line_at t.now to }
{
    let last = rows - 1;
    if from.row <= to {
        if to - from.row <= last - to {
            return down(t, from, to - from.row);
        }
        return up(t, last, t.len(), last - to);
    }
    if from.row - to <= to {
        return up(t, from.row, from.start, from.row - to);
    }
    let first = Line { row: 0, start: 0 };
    down(t, first, to)
}

// Row `row` of a text of so many rows, sought from the nearer end.
pub fn row_line(t: &[u32], rows: usize, row: usize) -> Line
    requires { (rows ≡ row_count t.now) × (row < rows) }
    ensures { result ≡ line_at t.now row }
{
    let first = Line { row: 0, start: 0 };
    line_from(t, rows, first, row)
}

// Row `to` of the text, sought from row `row`, which has the offset `at`: only what lies between
// them is read.
pub fn line_to(t: &[u32], row: usize, at: usize, to: usize) -> Line
    requires { Stands t.now row (row_start t.now row) at × (to < row_count t.now) }
    ensures { result ≡ line_at t.now to }
{
    if to <= row {
        return up(t, row, at, row - to);
    }
    below(t, row, at, to)
}

// The end of the row that has the offset `at`: its separator, or the end of the text.
// Both ways out give `e`: with `t.len()` at the end each short row took two more jumps.
pub fn row_end(t: &[u32], at: usize) -> usize
    requires { at ≤ length t.now }
    ensures { EndsAt t.now at result }
{
    let mut e = at;
    for i in at..t.len() {
        if t[i] == 10 {
            return e;
        }
        e = i + 1;
    }
    e
}

// How many code points a row has.
pub fn row_len(t: &[u32], l: Line) -> usize
    requires { IsLine t.now l }
    ensures { result ≡ row_len t.now l.row }
{
    let s = l.start;
    row_end(t, s) - s
}

// A row as a part of the text.
pub fn row(t: &[u32], l: Line) -> &[u32]
    requires { IsLine t.now l }
    ensures { result.now ≡ row_at t.now l.row }
{
    let s = l.start;
    let e = row_end(t, s);
    &t[s..e]
}

// The row of the offset `at`, found from a row at or above it.
pub fn line_of(t: &[u32], from: Line, at: usize) -> Line
    requires { IsLine t.now from × (from.start ≤ at) × (at ≤ length t.now) }
    ensures { result ≡ line_at t.now (row_of t.now at) }
{
    let mut row = from.row;
    let mut start = from.start;
    for i in from.start..at {
        if t[i] == 10 {
            row += 1;
            start = i + 1;
        }
    }
    Line { row, start }
}
