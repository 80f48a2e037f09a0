// The cells of characters, and how many characters go into a number of cells. From `wrap.rs`. Every
// character has at least one cell, and a tab is as any other.

#![tactic(auto)]

ghost use Rattle.std.specs.Prelude.{◌≡◌, ◌≤◌, length};
ghost use Rattle.chars.specs.Width.{Measures, width_with};
ghost use Rattle.row_cells.specs.Cells.{Cells, Fitting};
ghost use Rattle.row_cells.specs.Offsets.{cells_in};

use chars::Measure;

// The cells of x: its width, and at least one.
#[inline(always)]
pub fn cells_of(by: Measure<'_>, x: u32) -> u32
    requires { Measures by }
    ensures { Cells (width_with by.entry) x result }
{
    let width = chars::width_in(by, x);
    if width == 0 {
        return 1;
    }
    width
}

// How many characters of the row's start go into `room` cells. What is left is counted down, so
// that no sum can pass the largest number.
#[inline(always)]
pub fn fitting(by: Measure<'_>, row: &[u32], room: u32) -> usize
    requires { Measures by }
    ensures { Fitting (width_with by.entry) room
        row.now result }
{
    let mut left = room;
    for (i, x) in row.iter().enumerate() {
        let cells = cells_of(by, *x);
        if cells > left {
            return i;
        }
        left -= cells;
    }
    row.len()
}

// The cells of all characters of a row: at most 4 each, so the sum fits.
pub fn cells_in(by: Measure<'_>, row: &[u32]) -> u32
    requires { Measures by × (length row.now ≤ 1048576) }
    ensures { result ≡ cells_in (width_with by.entry)
        row.now }
{
    let mut sum: u32 = 0;
    for x in row {
        sum += cells_of(by, *x);
    }
    sum
}
