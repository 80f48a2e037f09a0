// The first character of a row that is no blank: the moves of `+`, `-`, `_`, `gg` and `G`.
ghost use Rattle.std.specs.Prelude.{◌≡◌, ◌≤◌, length};
ghost use Rattle.positions.specs.Positions.{Accepted};
ghost use Rattle.margins.specs.Margins.{BriefLine};
ghost use Rattle.text_moves.specs.Rows.{at_row, bottom, next_line, prev_line, this_line, RowFrom};

use margins::first_non_blank;
use positions::Entry;
use text::{Line, Position};

// The first character of a row that is no blank.
pub fn at_line(t: &[u32], l: Line) -> Position
    requires { BriefLine t.now l }
    ensures { result ≡ at_row t.now l.row }
{
    let row = l.row;
    let col = first_non_blank(t, l);
    Position { row: row, col: col }
}

// The first row.
pub fn top(t: &[u32]) -> Position
    requires { length t.now ≤ 1048576 }
    ensures { result ≡ at_row t.now 0 }
{
    let l = Line { row: 0, start: 0 };
    at_line(t, l)
}

// Row `to`, from the position's own or from the nearer end of the text.
fn at_row(t: &[u32], p: Position, e: Entry, to: usize) -> Position
    requires { RowFrom t.now p e to }
    ensures { result ≡ at_row t.now to }
{
    let own = Line {
        row: p.row,
        start: e.start,
    };
    let l = text::offsets::line_from(t, e.rows, own, to);
    at_line(t, l)
}

// The row with the number `count`, counted from 1, or the last row where it is 0 or there are
// fewer.
pub fn bottom(t: &[u32], p: Position, e: Entry, count: u32) -> Position
    requires { Accepted t.now p e }
    ensures { result ≡ bottom t.now count }
{
    let last = e.content - 1;
    if count == 0 {
        return at_row(t, p, e, last);
    }
    at_row(t, p, e, (count as usize - 1).min(last))
}

// So many rows down, no further than the last.
pub fn next_line(t: &[u32], p: Position, e: Entry, count: u32) -> Position
    requires { Accepted t.now p e }
    ensures { result ≡ next_line t.now count p }
{
    let last = e.content - 1;
    if p.row >= last {
        return p;
    }
    at_row(t, p, e, (p.row + (count as usize).max(1)).min(last))
}

// So many rows up, no further than the first.
pub fn prev_line(t: &[u32], p: Position, e: Entry, count: u32) -> Position
    requires { Accepted t.now p e }
    ensures { result ≡ prev_line t.now count p }
{
    if p.row == 0 {
        return p;
    }
    at_row(t, p, e, p.row.saturating_sub((count as usize).max(1)))
}

// One row less than `count` down, no further than the last.
pub fn this_line(t: &[u32], p: Position, e: Entry, count: u32) -> Position
    requires { Accepted t.now p e }
    ensures { result ≡ this_line t.now count p }
{
    let n = (count as usize).max(1) - 1;
    let last = e.content - 1;
    if (n > 0) & (p.row >= last) {
        return p;
    }
    at_row(t, p, e, (p.row + n).min(last))
}
