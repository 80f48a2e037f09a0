// Edits of a text in a buffer.
ghost use Rattle.std.specs.Prelude.{[]};
ghost use Rattle.call_edits.specs.Edits.{position_at, HostEdits};
ghost use Rattle.call_edits.specs.Bytes.{EditsFilled};

use call_bytes::fill;

// `insert` of code points.
#[unsafe(no_mangle)]
pub extern "C" fn tsivareza_insert_u32(
    text: &mut [u32],
    folds: &mut [u32],
    points: &[u32],
    row: u32,
    col: u32,
    caret: &mut [u32; 6],
    sizes: &mut [u32; 2],
) -> u32
    ensures { HostEdits text.old folds.old (position_at row col)
        (position_at row col) points.now caret.old sizes.old result
        text.new folds.new caret.new sizes.new }
{
    call_edits::insert(text, folds, points, row, col, caret, sizes)
}

// `insert` of bytes.
#[unsafe(no_mangle)]
pub extern "C" fn tsivareza_insert(
    text: &mut [u32],
    folds: &mut [u32],
    points: &[u8],
    room: &mut [u32],
    row: u32,
    col: u32,
    caret: &mut [u32; 6],
    sizes: &mut [u32; 2],
) -> u32
    ensures { EditsFilled text.old folds.old (position_at row col)
        points.now room.old caret.old sizes.old result
        text.new folds.new room.new caret.new
        sizes.new }
{
    let f = fill(points, room);
    if f != 0 {
        return f;
    }
    let n = points.len() / 4;
    call_edits::insert(text, folds, &room[..n], row, col, caret, sizes)
}

// `delete`.
#[unsafe(no_mangle)]
pub extern "C" fn tsivareza_delete(
    text: &mut [u32],
    folds: &mut [u32],
    row: u32,
    col: u32,
    end_row: u32,
    end_col: u32,
    caret: &mut [u32; 6],
    sizes: &mut [u32; 2],
) -> u32
    ensures { HostEdits text.old folds.old (position_at row col)
        (position_at end_row end_col) [] caret.old sizes.old result
        text.new folds.new caret.new sizes.new }
{
    call_edits::delete(text, folds, row, col, end_row, end_col, caret, sizes)
}
