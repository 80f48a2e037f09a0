// `j` and `k`: the target of `move_vertical` of motions.rs, by the tables of widths that are lent.
// The text, the place, the folds and the tabstop were accepted.
ghost use Rattle.std.specs.Prelude.{◌≡◌};
ghost use Rattle.chars.specs.Width.{width_with};
ghost use Rattle.visible_rows.specs.Visible.{delta_of};
ghost use Rattle.vertical.specs.Moves.{AcceptedBy, Ready, ReadyBy, Aims, wanted_col};
ghost use Rattle.vertical.specs.Moves.{aimed_col, move_vertical};

use crate::Target;
use chars::Measure;
use text::Line;
use visible_rows::rows;

// The visual column to aim for: the sticky one, or else the cursor's own.
pub fn wanted(
    by: Measure<'_>,
    t: &[u32],
    folds: &[u32],
    l: Line,
    col: usize,
    sticky: Option<u32>,
    tabstop: u32,
) -> u32
    requires { AcceptedBy by t.now folds.now l col tabstop }
    ensures { result ≡ wanted_col (width_with by.entry)
        t.now tabstop l.row col sticky }
{
    match sticky {
        Some(c) => c,
        None => {
            let line = text::offsets::row(t, l);
            row_columns::cursor_col_in(by, line, col, tabstop)
        }
    }
}

// The column of a row that holds a visual column, or the row's last one.
fn aimed(
    by: Measure<'_>,
    t: &[u32],
    rows: usize,
    from: Line,
    row: usize,
    want: u32,
    tabstop: u32,
) -> usize
    requires { Aims by t.now rows from row tabstop }
    ensures { result ≡ aimed_col (width_with by.entry)
        t.now tabstop want row }
{
    let l = text::offsets::line_from(t, rows, from, row);
    let line = text::offsets::row(t, l);
    let c = row_columns::char_col_in(by, line, want, tabstop);
    (c as usize).min(line.len().saturating_sub(1))
}

// So many visible rows down, or up where delta is below 0. Where the row stays, so does the column.
fn move_vertical(
    by: Measure<'_>,
    t: &[u32],
    folds: &[u32],
    rows: usize,
    l: Line,
    col: usize,
    sticky: Option<u32>,
    delta: i64,
    tabstop: u32,
) -> Target
    requires { ReadyBy by t.now folds.now rows l col tabstop delta }
    ensures { result ≡ move_vertical (width_with by.entry)
        t.now folds.now tabstop delta l.row col sticky }
{
    let want = wanted(by, t, folds, l, col, sticky, tabstop);
    let from = l.row;
    let row = rows::vertical_row(folds, rows, from, delta);
    if row == from {
        return Target {
            row: from,
            col: col,
            want: want,
        };
    }
    let c = aimed(by, t, rows, l, row, want, tabstop);
    Target {
        row: row,
        col: c,
        want: want,
    }
}

// `j` and `k`: so many visible rows down or up, count 0 as 1.
pub fn move_rows(
    by: Measure<'_>,
    t: &[u32],
    folds: &[u32],
    rows: usize,
    l: Line,
    col: usize,
    sticky: Option<u32>,
    down: bool,
    count: u32,
    tabstop: u32,
) -> Target
    requires { Ready by t.now folds.now rows l col tabstop }
    ensures { result ≡ move_vertical (width_with by.entry)
        t.now folds.now tabstop (delta_of down count) l.row col sticky }
{
    move_vertical(
        by,
        t,
        folds,
        rows,
        l,
        col,
        sticky,
        rows::delta_of(down, count),
        tabstop,
    )
}
