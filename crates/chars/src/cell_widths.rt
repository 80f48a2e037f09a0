// Width in cells: what unicode-width gives, with None read as 1. Document 01, "Character facts".
ghost use Rattle.std.specs.Prelude.{◌≡◌};
ghost use Rattle.chars.specs.Width.{width_of, low_width, starts_after, Measures, width_with};

use crate::Measure;
use crate::width_tables::{DOUBLE_WIDTH, ZERO_WIDTH};

// 0 for U+0000 and 1 for any other: the width of a low code point.
#[inline(always)]
fn low_width(x: u32) -> u32
    ensures { result ≡ low_width x }
{
    if x == 0 {
        return 0;
    }
    1
}

// Whether x lies before all ranges of a table.
#[inline(always)]
fn is_before(table: &[u32], x: u32) -> bool
    ensures { result ≡ starts_after table.now x }
{
    if table.len() == 0 {
        return false;
    }
    x < table[0]
}

// The width of x by the tables that are lent: of what has no cell, and of what has two. What lies
// below U+0300 and before all that has two cells, as most letters, is decided without a search.
#[inline(always)]
pub fn width_in(by: Measure<'_>, x: u32) -> u32
    requires { Measures by }
    ensures { result ≡ width_with by.entry x }
{
    if (x < 0x300) & is_before(by.doubles, x) {
        return low_width(x);
    }
    if ranges::in_table(by.zeros, x) {
        return 0;
    }
    if ranges::in_table(by.doubles, x) {
        return 2;
    }
    1
}

// The same by the tables of today, which it names.
fn high_width(x: u32) -> u32
    ensures { result ≡ width_of x }
{
    width_in(
        Measure {
            zeros: &ZERO_WIDTH,
            doubles: &DOUBLE_WIDTH,
        },
        x,
    )
}

// The width of x: 0, 1 or 2.
pub fn width(x: u32) -> u32
    ensures { result ≡ width_of x }
{
    if x < 0x300 {
        return low_width(x);
    }
    high_width(x)
}
