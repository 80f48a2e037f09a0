// Tab columns of one row.
ghost use Rattle.std.specs.Prelude.{◌≡◌};
ghost use Rattle.call_bytes.specs.Reply.{Replied};
ghost use Rattle.call_rows.specs.Tabs.{told_column, tab_column_under, tab_columns};

use crate::flags::{plain_of, setting_of};
use call_bytes::{Told, reply};
use row_check::Column;
use widths::Ambiguous;

// The column, or the number it is refused with.
pub fn told_column(m: Column) -> Told
    ensures { result ≡ told_column m }
{
    match m {
        Column::At(n) => Told::Value(n),
        Column::Refused(f) => Told::Refused(f),
    }
}

// What a number stands for: 0 `visual_col_to_char_col`, 1 `char_col_to_visual_col`,
// 2 `cursor_visual_col`, 3 `leading_visual_width`, which takes no column and is the same under both
// settings; 100 where it stands for none.
fn column_by(op: u32, ambiguous: Ambiguous, row: &[u32], col: u32, tabstop: u32) -> Told
    ensures { result ≡ tab_column_under ambiguous op col tabstop row.now }
{
    match op {
        0 => told_column(row_columns::visual_col_to_char_col(row, col, tabstop, ambiguous)),
        1 => told_column(row_columns::char_col_to_visual_col(row, col, tabstop, ambiguous)),
        2 => told_column(row_columns::cursor_visual_col(row, col, tabstop, ambiguous)),
        3 => told_column(row_tabs::leading_visual_width(row, tabstop)),
        _ => Told::Refused(100),
    }
}

// A column of a row of code points; the number may have the flag for wide.
pub fn columns(op: u32, row: &[u32], col: u32, tabstop: u32, out: &mut [u32; 1]) -> u32
    ensures { Replied (tab_columns op col tabstop row.now) out.old result
        out.new }
{
    let plain = plain_of(op);
    reply(column_by(plain, setting_of(op), row, col, tabstop), out)
}
