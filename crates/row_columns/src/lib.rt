// Tab columns of one row: where a character stands on the screen, and which character a screen
// column holds. From `geom.rs`. Each call checks the row in one pass and walks it in one more, by
// the tables of widths that the walk is lent.

#![tactic(auto)]

ghost use Rattle.std.specs.Prelude.{◌≡◌};
ghost use Rattle.chars.specs.Width.{width_with};
ghost use Rattle.row_columns.specs.Columns.{visual_from, char_from, cursor_from};
ghost use Rattle.row_columns.specs.Columns.{visual_col, char_col, cursor_col};
ghost use Rattle.widths.specs.Widths.{width_as};
ghost use Rattle.row_columns.specs.Calls.{visual_col_to_char_col, char_col_to_visual_col};
ghost use Rattle.row_columns.specs.Calls.{cursor_visual_col, column_by, column_as};
ghost use Rattle.row_columns.specs.Ready.{Fits, Lent, Ready};

use chars::Measure;
use row_check::Column;
use row_tabs::{cell_width, refused, stop_of};
use widths::Ambiguous;

// The visual column of character `col`, or the row's width where it has no such character.
fn visual_at(by: Measure<'_>, row: &[u32], col: usize, tab: u32) -> u32
    requires { Ready by row.now tab }
    ensures { result ≡ visual_from (width_with by.entry)
        tab 0 row.now col }
{
    let mut visual: u32 = 0;
    for (i, x) in row.iter().enumerate() {
        if i == col {
            return visual;
        }
        visual += cell_width(by, *x, visual, tab);
    }
    visual
}

// The character whose cells hold visual column `target`, or the row's count. A character with no
// cells never holds one, so it is passed over.
fn char_at(by: Measure<'_>, row: &[u32], target: u32, tab: u32) -> u32
    requires { Ready by row.now tab }
    ensures { result ≡ char_from (width_with by.entry)
        tab 0 row.now target }
{
    let mut visual: u32 = 0;
    for (i, x) in row.iter().enumerate() {
        let next = visual + cell_width(by, *x, visual, tab);
        if next > target {
            return i as u32;
        }
        visual = next;
    }
    row.len() as u32
}

// The visual column in which a cursor on character `col` is drawn.
fn cursor_at(by: Measure<'_>, row: &[u32], col: usize, tab: u32) -> u32
    requires { Ready by row.now tab }
    ensures { result ≡ cursor_from (width_with by.entry)
        tab row.now col }
{
    if col >= row.len() {
        return visual_at(by, row, col, tab);
    }
    if row[col] == 9 {
        return visual_at(by, row, col + 1, tab) - 1;
    }
    visual_at(by, row, col, tab)
}

// `visual_col_to_char_col` of a row that was accepted, by the tables that are lent.
pub fn char_col_in(by: Measure<'_>, row: &[u32], visual: u32, tabstop: u32) -> u32
    requires { Lent by row.now tabstop }
    ensures { result ≡ char_col (width_with by.entry)
        tabstop row.now visual }
{
    if visual == 0 {
        return 0;
    }
    char_at(by, row, visual, stop_of(tabstop))
}

// `char_col_to_visual_col` of such a row.
fn visual_col_in(by: Measure<'_>, row: &[u32], col: usize, tabstop: u32) -> u32
    requires { Lent by row.now tabstop }
    ensures { result ≡ visual_col (width_with by.entry)
        tabstop row.now col }
{
    visual_at(by, row, col, stop_of(tabstop))
}

// `cursor_visual_col` of such a row.
pub fn cursor_col_in(by: Measure<'_>, row: &[u32], col: usize, tabstop: u32) -> u32
    requires { Lent by row.now tabstop }
    ensures { result ≡ cursor_col (width_with by.entry)
        tabstop row.now col }
{
    cursor_at(by, row, col, stop_of(tabstop))
}

// Which column is asked for.
#[derive(Clone, Copy)]
enum Ask {
    Char,
    Visual,
    Cursor,
}

// The column that is asked for, of such a row.
fn column_in(by: Measure<'_>, ask: Ask, row: &[u32], n: u32, tabstop: u32) -> u32
    requires { Lent by row.now tabstop }
    ensures { result ≡ column_by (width_with by.entry) ask
        tabstop row.now n }
{
    match ask {
        Ask::Char => char_col_in(by, row, n, tabstop),
        Ask::Visual => visual_col_in(by, row, n as usize, tabstop),
        Ask::Cursor => cursor_col_in(by, row, n as usize, tabstop),
    }
}

// The column that is asked for, or what the row or the tabstop is refused for.
fn column(ask: Ask, row: &[u32], n: u32, tabstop: u32, ambiguous: Ambiguous) -> Column
    ensures { result ≡ column_as ambiguous ask row.now n tabstop }
{
    let f = refused(row, tabstop);
    if f != 0 {
        return Column::Refused(f);
    }
    Column::At(widths::lend(ambiguous, |by| { column_in(by, ask, row, n, tabstop) }))
}

// The character whose cells hold visual column `visual`, or the row's count past its end.
// Visual column 0 is character 0, even where that has no cell.
pub fn visual_col_to_char_col(
    row: &[u32],
    visual: u32,
    tabstop: u32,
    ambiguous: Ambiguous,
) -> Column
    ensures { result ≡ visual_col_to_char_col ambiguous row.now visual tabstop }
{
    column(Ask::Char, row, visual, tabstop, ambiguous)
}

// The visual column of the first cell of character `col`, or the row's width past its end.
pub fn char_col_to_visual_col(row: &[u32], col: u32, tabstop: u32, ambiguous: Ambiguous) -> Column
    ensures { result ≡ char_col_to_visual_col ambiguous row.now col tabstop }
{
    column(Ask::Visual, row, col, tabstop, ambiguous)
}

// The visual column in which a cursor on character `col` is drawn: a tab's last cell, and the
// first cell of any other.
pub fn cursor_visual_col(row: &[u32], col: u32, tabstop: u32, ambiguous: Ambiguous) -> Column
    ensures { result ≡ cursor_visual_col ambiguous row.now col tabstop }
{
    column(Ask::Cursor, row, col, tabstop, ambiguous)
}
