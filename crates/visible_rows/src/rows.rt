// From visible row to visible row: the target row of `move_vertical` of motions.rs.
// Rows that no fold hides are passed at once: a pass over the folds for each fold that is met, and
// none for a row.
ghost use Rattle.std.specs.Prelude.{◌≡◌, false, ◌+◌, ◌≤◌, ◌<◌, pos, neg_ℤ, nat_abs};
ghost use Rattle.std.specs.Int.Signed.{lt_z};
ghost use Rattle.std.specs.Int.{w64};
ghost use Rattle.std.proofs.Common.{SFits};
ghost use Rattle.lists.specs.Rounds.{rounds};
ghost use Rattle.visible_rows.specs.Visible.{toward, step_row, shown_row, vertical_row, delta_of};
ghost use Rattle.visible_rows.specs.Visible.{shift};
ghost use Rattle.visible_rows.specs.Visible.{RowIs, rows_beyond, Clear, Free, HopTo};
ghost use Rattle.visible_rows.specs.Ready.{RowReady, WalkReady, HopReady, DeltaReady};

use crate::Hop;

// So many rows or segments further, down or up, where up stops at 0.
pub fn shifted(down: bool, i: usize, n: usize) -> usize
    requires { i + n ≤ 8388608 }
    ensures { result ≡ shift down i n }
{
    if down { i + n } else { i.saturating_sub(n) }
}

// How many of a text's rows are below or above.
fn rows_beyond(down: bool, rows: usize, row: usize) -> usize
    requires { row < rows }
    ensures { result ≡ rows_beyond down rows row }
{
    if down { rows - 1 - row } else { row }
}

// How many of the next `free` rows there are before the first that this fold hides.
fn clear_of(down: bool, row: usize, s: u32, e: u32, closed: u32, free: usize) -> usize
    ensures { Clear down row s e closed free result }
{
    if closed != 1 {
        return free;
    }
    if down {
        if e as usize <= row {
            return free;
        }
        return free.min((s as usize).saturating_sub(row));
    }
    if row <= s as usize + 1 {
        return free;
    }
    free.min((row - 1).saturating_sub(e as usize))
}

// How many rows come next that no fold hides.
pub fn free_rows(folds: &[u32], rows: usize, down: bool, row: usize) -> usize
    requires { row < rows }
    ensures { Free folds.now rows down row result }
{
    let mut free = rows_beyond(down, rows, row);
    for fold in folds.chunks_exact(3) {
        free = clear_of(down, row, fold[0], fold[1], fold[2], free);
    }
    free
}

// The nearest visible row below or above.
pub fn visible_row(folds: &[u32], rows: usize, down: bool, row: usize) -> Option<usize>
    requires { RowReady folds.now rows row }
    ensures { result ≡ toward folds.now rows down row }
{
    if down {
        return folds::next_visible_row(folds, rows, row);
    }
    folds::prev_visible_row(folds, row)
}

// The nearest visible row, where it is known how many rows come next that no fold hides: the folds
// are asked only where there are none.
pub fn hop(folds: &[u32], rows: usize, down: bool, row: usize, free: usize) -> Hop
    requires { HopReady folds.now rows down row free }
    ensures { HopTo folds.now rows down row result }
{
    if free > 0 {
        return Hop {
            next: Some(shifted(down, row, 1)),
            free: free - 1,
        };
    }
    match visible_row(folds, rows, down, row) {
        Some(x) => Hop {
            next: Some(x),
            free: free_rows(folds, rows, down, x),
        },
        None => Hop {
            next: None,
            free: 0,
        },
    }
}

// So many visible rows on, or the last one that there is. A `while`: the step differs from turn to
// turn.
fn rows_on(folds: &[u32], rows: usize, down: bool, row: usize, n: usize) -> usize
    requires { WalkReady folds.now rows row }
    ensures { RowIs (rounds (step_row folds.now rows down) n row) rows result }
{
    let mut r = row;
    let mut left = n;
    while left > 0 {
        let free = free_rows(folds, rows, down, r);
        if left <= free {
            return shifted(down, r, left);
        }
        let edge = shifted(down, r, free);
        match visible_row(folds, rows, down, edge) {
            Some(x) => {
                r = x;
                left = left - free - 1;
            }
            None => {
                return edge;
            }
        }
    }
    r
}

// The same number, signed.
fn signed(n: usize) -> i64
    requires { n ≤ 4294967295 }
    ensures { result ≡ pos n }
{
    n as i64
}

// The number with the other sign.
fn negated(z: i64) -> i64
    requires { SFits w64 (neg_ℤ z) }
    ensures { result ≡ neg_ℤ z }
{
    -z
}

// The same number, without a sign.
fn unsigned(z: i64) -> usize
    requires { lt_z z (pos 0) ≡ false }
    ensures { result ≡ nat_abs z }
{
    z as usize
}

// The signed row step of a count: 0 acts as 1.
pub fn delta_of(down: bool, count: u32) -> i64
    ensures { result ≡ delta_of down count }
{
    let n = signed((count as usize).max(1));
    if down { n } else { negated(n) }
}

// The row itself, or the first row of the fold that hides it.
fn shown_row(folds: &[u32], rows: usize, row: usize) -> usize
    requires { RowReady folds.now rows row }
    ensures { RowIs (shown_row folds.now rows row) rows result }
{
    if !folds::is_row_hidden(folds, row) {
        return row;
    }
    match visible_row(folds, rows, false, row) {
        Some(first) => first,
        None => row,
    }
}

// The row that a signed step of visible rows leads to; the way up starts from the first row of the
// fold that hides the row, the way down from the row itself.
pub fn vertical_row(folds: &[u32], rows: usize, row: usize, delta: i64) -> usize
    requires { DeltaReady folds.now rows row delta }
    ensures { RowIs (vertical_row folds.now rows delta row) rows result }
{
    if delta < 0 {
        let from = shown_row(folds, rows, row);
        return rows_on(folds, rows, false, from, unsigned(negated(delta)));
    }
    rows_on(folds, rows, true, row, unsigned(delta))
}
