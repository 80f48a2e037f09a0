// Tabstops: when a row with one is refused, how many cells a character has, and where the row's
// indent ends. From `geom.rs`. A tab runs to the next multiple of the tabstop, and any other
// character has its width, 0 included.

#![tactic(auto)]

ghost use Rattle.std.specs.Prelude.{◌≡◌, ◌-◌, ◌%◌};
ghost use Rattle.chars.specs.Width.{width_with};
ghost use Rattle.row_tabs.specs.Cells.{column_refusal, stop_of, cells_at, CellsAre};
ghost use Rattle.row_tabs.specs.Cells.{Stop, Tables};
ghost use Rattle.row_tabs.specs.Indents.{leading_from, leading_visual_width, Indented};

use chars::Measure;
use row_check::Column;

// 1 and 2 of the row, 6 for a tabstop above 1,000, else 0.
pub fn refused(row: &[u32], tabstop: u32) -> u32
    ensures { result ≡ column_refusal row.now tabstop }
{
    let f = row_check::row_refusal(row);
    if f != 0 {
        return f;
    }
    if tabstop > 1000 {
        return 6;
    }
    0
}

// The tabstop to use: 0 acts as 1.
pub fn stop_of(tabstop: u32) -> u32
    ensures { result ≡ stop_of tabstop }
{
    if tabstop == 0 {
        return 1;
    }
    tabstop
}

// The cells of a tab that is painted from visual column `visual` on.
fn tab_width(visual: u32, tab: u32) -> u32
    requires { Stop tab }
    ensures { CellsAre (tab - visual % tab) result }
{
    tab - visual % tab
}

// The cells of x where it is painted from visual column `visual` on, by the tables that are lent.
#[inline(always)]
pub fn cell_width(by: Measure<'_>, x: u32, visual: u32, tab: u32) -> u32
    requires { Tables by tab }
    ensures { CellsAre (cells_at (width_with by.entry) tab
        visual x) result }
{
    if x == 9 {
        return tab_width(visual, tab);
    }
    chars::width_in(by, x)
}

// The visual column at which the row's leading spaces and tabs end.
fn leading_at(row: &[u32], tab: u32) -> u32
    requires { Indented row.now tab }
    ensures { result ≡ leading_from tab 0 row.now }
{
    let mut visual: u32 = 0;
    for &x in row {
        if x == 32 {
            visual += 1;
        } else if x == 9 {
            visual += tab_width(visual, tab);
        } else {
            return visual;
        }
    }
    visual
}

// The visual width of the spaces and tabs with which the row begins.
pub fn leading_visual_width(row: &[u32], tabstop: u32) -> Column
    ensures { result ≡ leading_visual_width row.now tabstop }
{
    let f = refused(row, tabstop);
    if f != 0 {
        return Column::Refused(f);
    }
    let tab = stop_of(tabstop);
    Column::At(leading_at(row, tab))
}
