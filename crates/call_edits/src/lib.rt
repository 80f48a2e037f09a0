// Calls for hosts that edit a text in a buffer. Document 02, #102. A caret is six numbers: row,
// column, whether it has a sticky column, and that, whether it keeps an offset within a segment,
// and that; the last four are 0 after an edit. The sizes are how many code points and how many
// folds the buffers hold. Both are read, and hold the new numbers where the answer is 0; else
// nothing has changed.

#![tactic(auto)]

ghost use Rattle.std.specs.Prelude.{◌≡◌, []};
ghost use Rattle.call_edits.specs.Edits.{Fits, Shown, caret_in, sizes_in, sizes_of};
ghost use Rattle.call_edits.specs.Edits.{position_at, HostEdits};

use edit_checks::Sizes;
use edits::Edited;
use motions::Caret;
use text::Position;

// The caret and the sizes that are lent.
fn caret_in(caret: &[u32; 6]) -> Caret
    ensures { result ≡ caret_in caret.now }
{
    call_texts::caret_six(caret[0], caret[1], caret[2], caret[3], caret[4], caret[5])
}

// The two sizes that a host lends, as the edits take them.
fn sizes_in(sizes: &[u32; 2]) -> Sizes
    ensures { result ≡ sizes_in sizes.now }
{
    sizes_of(sizes[0], sizes[1])
}

// A text of so many code points, with so many folds.
fn sizes_of(len: u32, count: u32) -> Sizes
    ensures { result ≡ sizes_of len count }
{
    Sizes {
        len: len as usize,
        count: count as usize,
    }
}

// Puts what an edit leaves into them and answers 0, or answers the refusal's number.
fn show(e: Edited, caret: &mut [u32; 6], sizes: &mut [u32; 2]) -> u32
    requires { Fits e }
    ensures { Shown e caret.old sizes.old result caret.new
        sizes.new }
{
    match e {
        Edited::Done(l) => {
            *caret = [l.caret.row, l.caret.col, 0, 0, 0, 0];
            *sizes = [l.sizes.len as u32, l.sizes.count as u32];
            0
        }
        Edited::Refused(f) => f,
    }
}

// `insert` on numbers.
pub fn insert(
    text: &mut [u32],
    folds: &mut [u32],
    points: &[u32],
    row: u32,
    col: u32,
    caret: &mut [u32; 6],
    sizes: &mut [u32; 2],
) -> u32
    ensures { HostEdits text.old folds.old (position_at row col)
        (position_at row col) points.now caret.old sizes.old result
        text.new folds.new caret.new sizes.new }
{
    let k = caret_in(caret);
    let s = sizes_in(sizes);
    let p = Position {
        row: row as usize,
        col: col as usize,
    };
    show(edits::insert(text, folds, s, p, points, k), caret, sizes)
}

// `delete` on numbers.
pub fn delete(
    text: &mut [u32],
    folds: &mut [u32],
    row: u32,
    col: u32,
    end_row: u32,
    end_col: u32,
    caret: &mut [u32; 6],
    sizes: &mut [u32; 2],
) -> u32
    ensures { HostEdits text.old folds.old (position_at row col)
        (position_at end_row end_col) [] caret.old sizes.old result
        text.new folds.new caret.new sizes.new }
{
    let k = caret_in(caret);
    let s = sizes_in(sizes);
    let p = Position {
        row: row as usize,
        col: col as usize,
    };
    let q = Position {
        row: end_row as usize,
        col: end_col as usize,
    };
    show(edits::delete(text, folds, s, p, q, k), caret, sizes)
}
