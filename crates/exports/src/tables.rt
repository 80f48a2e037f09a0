// A table of row starts, and edits that keep it.
ghost use Rattle.std.specs.Prelude.{[]};
ghost use Rattle.call_edits.specs.Edits.{position_at};
ghost use Rattle.call_row_table.specs.Tables.{HostFills, HostKeeps};
ghost use Rattle.call_row_table.specs.Bytes.{FillsFilled, KeepsFilled};

use call_bytes::fill;

// `row_starts` on code points.
#[unsafe(no_mangle)]
pub extern "C" fn tsivareza_row_starts_u32(
    text: &[u32],
    starts: &mut [u32],
    out: &mut [u32; 1],
) -> u32
    ensures { HostFills text.now starts.old out.old result
        starts.new out.new }
{
    call_row_table::row_starts(text, starts, out)
}

// `row_starts` on bytes.
#[unsafe(no_mangle)]
pub extern "C" fn tsivareza_row_starts(
    text: &[u8],
    room: &mut [u32],
    starts: &mut [u32],
    out: &mut [u32; 1],
) -> u32
    ensures { FillsFilled text.now room.old starts.old
        out.old result room.new starts.new out.new }
{
    let f = fill(text, room);
    if f != 0 {
        return f;
    }
    let n = text.len() / 4;
    call_row_table::row_starts(&room[..n], starts, out)
}

// `insert_rows` of code points.
#[unsafe(no_mangle)]
pub extern "C" fn tsivareza_insert_rows_u32(
    text: &mut [u32],
    folds: &mut [u32],
    starts: &mut [u32],
    points: &[u32],
    row: u32,
    col: u32,
    caret: &mut [u32; 6],
    sizes: &mut [u32; 3],
) -> u32
    ensures { HostKeeps text.old folds.old starts.old
        (position_at row col) (position_at row col) points.now caret.old
        sizes.old result text.new folds.new starts.new
        caret.new sizes.new }
{
    call_row_table::insert_rows(text, folds, starts, points, row, col, caret, sizes)
}

// `insert_rows` of bytes.
#[unsafe(no_mangle)]
pub extern "C" fn tsivareza_insert_rows(
    text: &mut [u32],
    folds: &mut [u32],
    starts: &mut [u32],
    points: &[u8],
    room: &mut [u32],
    row: u32,
    col: u32,
    caret: &mut [u32; 6],
    sizes: &mut [u32; 3],
) -> u32
    ensures { KeepsFilled text.old folds.old starts.old
        (position_at row col) points.now room.old caret.old
        sizes.old result text.new folds.new starts.new
        room.new caret.new sizes.new }
{
    let f = fill(points, room);
    if f != 0 {
        return f;
    }
    let n = points.len() / 4;
    call_row_table::insert_rows(text, folds, starts, &room[..n], row, col, caret, sizes)
}

// `delete_rows`.
#[unsafe(no_mangle)]
pub extern "C" fn tsivareza_delete_rows(
    text: &mut [u32],
    folds: &mut [u32],
    starts: &mut [u32],
    row: u32,
    col: u32,
    end_row: u32,
    end_col: u32,
    caret: &mut [u32; 6],
    sizes: &mut [u32; 3],
) -> u32
    ensures { HostKeeps text.old folds.old starts.old
        (position_at row col) (position_at end_row end_col) [] caret.old
        sizes.old result text.new folds.new starts.new
        caret.new sizes.new }
{
    call_row_table::delete_rows(
        text, folds, starts, row, col, end_row, end_col, caret, sizes,
    )
}
