// The first and the last character of a row that is no blank.
// A blank at the front is a space or a tab; at the back it is any white space, as the Rust has it.

#![tactic(auto)]

ghost use Rattle.std.specs.Prelude.{◌≡◌};
ghost use Rattle.chars.specs.White.{whites};
ghost use Rattle.margins.specs.Margins.{is_blank, indent_of, first_non_blank};
ghost use Rattle.margins.specs.Margins.{solid_of, last_non_blank, BriefLine, ColumnIs};

use text::Line;

// Whether x is a space or a tab.
fn is_blank(x: u32) -> bool
    ensures { result ≡ is_blank x }
{
    (x == 32) | (x == 9)
}

// How many blanks a row begins with.
fn indent(row: &[u32]) -> usize
    ensures { result ≡ indent_of row.now }
{
    for (i, x) in row.iter().enumerate() {
        if !is_blank(*x) {
            return i;
        }
    }
    row.len()
}

// The first column of a row that is no blank, or its last column where there is none.
pub fn first_non_blank(t: &[u32], l: Line) -> usize
    requires { BriefLine t.now l }
    ensures { ColumnIs (first_non_blank t.now l.row) result }
{
    let row = text::offsets::row(t, l);
    indent(row).min(row.len().saturating_sub(1))
}

// How many characters a row has up to the last that is no white space.
fn solid(white: &[u32], row: &[u32]) -> usize
    requires { white.now ≡ whites }
    ensures { result ≡ solid_of row.now }
{
    for b in (0..row.len()).rev() {
        if !chars::white_in(white, row[b]) {
            return b + 1;
        }
    }
    0
}

// The last column of a row that is no white space, or column 0 where there is none.
pub fn last_non_blank(t: &[u32], l: Line) -> usize
    requires { BriefLine t.now l }
    ensures { ColumnIs (last_non_blank t.now l.row) result }
{
    let row = text::offsets::row(t, l);
    solid(&chars::WHITE, row).saturating_sub(1)
}
