// Out of a closed fold, as `move_screen_vertical` of motions.rs does before its rounds: to the
// fold's last row, or upwards to its first.
ghost use Rattle.std.specs.Prelude.{◌≡◌, cond};
ghost use Rattle.screen.specs.Screen.{jumped, jumped_to};
ghost use Rattle.screen.specs.Walks.{JumpedTo};
ghost use Rattle.screen.specs.Ready.{JumpReady, Leaves};
ghost use Rattle.screen.specs.Keeping.{starts_at};

use crate::Jump;
use text::Line;

// The last row downwards, the first upwards.
fn pick(down: bool, last: usize, first: usize) -> usize
    ensures { result ≡ cond down last first }
{
    if down { last } else { first }
}

// The place in another row, at the column or the row's last one; the place itself where the row is
// its own.
fn jump_to(t: &[u32], l: Line, col: usize, row: usize) -> Jump
    requires { JumpReady t.now l col row }
    ensures { JumpedTo t.now
        (jumped_to t.now (record { row = l.row; col = col }) row) result }
{
    let from = l.row;
    if row == from {
        return Jump {
            row: from,
            start: l.start,
            col: col,
        };
    }
    let m = text::offsets::line_to(t, from, l.start, row);
    let n = text::offsets::row_len(t, m);
    Jump {
        row: m.row,
        start: m.start,
        col: col.min(n.saturating_sub(1)),
    }
}

// From a closed fold to its last row, or upwards to its first; elsewhere the place stays.
fn jump(
    t: &[u32],
    folds: &[u32],
    rows: usize,
    content: usize,
    down: bool,
    l: Line,
    col: usize,
) -> Jump
    requires { Leaves t.now folds.now rows content l col }
    ensures { JumpedTo t.now
        (jumped t.now folds.now down (record { row = l.row; col = col }))
        result }
{
    match folds::closed_fold_at(folds, rows, content, l.row) {
        Some((first, last)) => jump_to(t, l, col, pick(down, last, first)),
        None => Jump {
            row: l.row,
            start: l.start,
            col: col,
        },
    }
}

// Where the rounds begin: out of a closed fold while no offset is kept, and else the place itself.
pub fn start(
    t: &[u32],
    folds: &[u32],
    rows: usize,
    content: usize,
    down: bool,
    l: Line,
    col: usize,
    offset: Option<u32>,
) -> Jump
    requires { Leaves t.now folds.now rows content l col }
    ensures { JumpedTo t.now (starts_at t.now folds.now down
        offset (record { row = l.row; col = col })) result }
{
    match offset {
        None => jump(t, folds, rows, content, down, l, col),
        Some(_) => Jump {
            row: l.row,
            start: l.start,
            col: col,
        },
    }
}
