// Calls for hosts that keep where the rows of their text start. Document 02, #106. A caret is six
// numbers, as in `call_edits`; the sizes are how many code points and how many folds the buffers
// hold, and how many rows have content. All are read by an edit, and hold the new numbers where the
// answer is 0; else nothing has changed.

#![tactic(auto)]

ghost use Rattle.std.specs.Prelude.{◌≡◌, []};
ghost use Rattle.call_bytes.specs.Reply.{told, Replied};
ghost use Rattle.call_texts.specs.Rows.{told_rows};
ghost use Rattle.call_edits.specs.Edits.{caret_in, sizes_in, sizes_of, position_at};
ghost use Rattle.call_row_table.specs.Tables.{Fits, Shown, HostFills, HostKeeps};

use edit_checks::Sizes;
use edit_rows::EditedRows;
use motions::Caret;
use text::{Counted, Position};

// Puts what a fill answers into `out` and answers 0, or answers the refusal's number.
fn show_count(m: Counted, out: &mut [u32; 1]) -> u32
    ensures { Replied (told (told_rows m)) out.old result out.new }
{
    match m {
        Counted::Rows(n) => {
            *out = [n];
            0
        }
        Counted::Refused(f) => f,
    }
}

// `row_starts` on numbers.
pub fn row_starts(text: &[u32], starts: &mut [u32], out: &mut [u32; 1]) -> u32
    ensures { HostFills text.now starts.old out.old result
        starts.new out.new }
{
    show_count(row_table::fill::row_starts(text, starts), out)
}

// The caret and the sizes that are lent.
fn caret_in(caret: &[u32; 6]) -> Caret
    ensures { result ≡ caret_in caret.now }
{
    call_texts::caret_six(caret[0], caret[1], caret[2], caret[3], caret[4], caret[5])
}

// The first two of the three sizes that a host lends, as the edits take them.
fn sizes_in(sizes: &[u32; 3]) -> Sizes
    ensures { result ≡ sizes_in sizes.now }
{
    sizes_of(sizes[0], sizes[1])
}

// A text of so many code points, with so many folds.
fn sizes_of(len: u32, count: u32) -> Sizes
    ensures { result ≡ sizes_of len count }
{
    Sizes {
        len: len as usize,
        count: count as usize,
    }
}

// Puts what an edit leaves into them and answers 0, or answers the refusal's number.
fn show(e: EditedRows, caret: &mut [u32; 6], sizes: &mut [u32; 3]) -> u32
    requires { Fits e }
    ensures { Shown e caret.old sizes.old result caret.new
        sizes.new }
{
    match e {
        EditedRows::Done(k) => {
            let l = k.left;
            *caret = [l.caret.row, l.caret.col, 0, 0, 0, 0];
            *sizes = [l.sizes.len as u32, l.sizes.count as u32, k.content];
            0
        }
        EditedRows::Refused(f) => f,
    }
}

// `insert_rows` on numbers.
pub fn insert_rows(
    text: &mut [u32],
    folds: &mut [u32],
    starts: &mut [u32],
    points: &[u32],
    row: u32,
    col: u32,
    caret: &mut [u32; 6],
    sizes: &mut [u32; 3],
) -> u32
    ensures { HostKeeps text.old folds.old starts.old
        (position_at row col) (position_at row col) points.now caret.old
        sizes.old result text.new folds.new starts.new
        caret.new sizes.new }
{
    let k = caret_in(caret);
    let s = sizes_in(sizes);
    let n = sizes[2];
    let p = Position {
        row: row as usize,
        col: col as usize,
    };
    let e = edit_rows::insert_rows(text, folds, starts, s, n, p, points, k);
    show(e, caret, sizes)
}

// `delete_rows` on numbers.
pub fn delete_rows(
    text: &mut [u32],
    folds: &mut [u32],
    starts: &mut [u32],
    row: u32,
    col: u32,
    end_row: u32,
    end_col: u32,
    caret: &mut [u32; 6],
    sizes: &mut [u32; 3],
) -> u32
    ensures { HostKeeps text.old folds.old starts.old
        (position_at row col) (position_at end_row end_col) [] caret.old
        sizes.old result text.new folds.new starts.new
        caret.new sizes.new }
{
    let k = caret_in(caret);
    let s = sizes_in(sizes);
    let n = sizes[2];
    let p = Position {
        row: row as usize,
        col: col as usize,
    };
    let q = Position {
        row: end_row as usize,
        col: end_col as usize,
    };
    let e = edit_rows::delete_rows(text, folds, starts, s, n, p, q, k);
    show(e, caret, sizes)
}
