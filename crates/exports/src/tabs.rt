// Tab columns of one row.
ghost use Rattle.call_points.specs.Points.{points};
ghost use Rattle.call_bytes.specs.Reply.{Replied, Answered};
ghost use Rattle.call_rows.specs.Tabs.{tab_columns};

use call_bytes::fill;

// A column of a row of code points.
#[unsafe(no_mangle)]
pub extern "C" fn tsivareza_columns_u32(
    op: u32,
    row: &[u32],
    col: u32,
    tabstop: u32,
    out: &mut [u32; 1],
) -> u32
    ensures { Replied (tab_columns op col tabstop row.now) out.old result
        out.new }
{
    call_rows::columns(op, row, col, tabstop, out)
}

// A column of a row of bytes.
#[unsafe(no_mangle)]
pub extern "C" fn tsivareza_columns(
    op: u32,
    row: &[u8],
    room: &mut [u32],
    col: u32,
    tabstop: u32,
    out: &mut [u32; 1],
) -> u32
    ensures { Answered row.now room.old out.old (tab_columns
        op col tabstop (points row.now)) result room.new out.new }
{
    let f = fill(row, room);
    if f != 0 {
        return f;
    }
    let n = row.len() / 4;
    call_rows::columns(op, &room[..n], col, tabstop, out)
}
