// The partner of a bracket, and where the % key goes to: `matching_bracket_pos` and `match_bracket`
// of motions.rs. The text is checked and the row found; the walk to the partner is in
// `bracket_walks`.
ghost use Rattle.std.specs.Prelude.{◌≡◌};
ghost use Rattle.text.specs.Offsets.{Stands};
ghost use Rattle.brackets.specs.Matching.{matching_bracket_pos};
ghost use Rattle.brackets.specs.Walk.{column_of};
ghost use Rattle.brackets.specs.Find.{key_from, ClearLine};

use bracket_kinds::find;
use bracket_walks::{Partner, walks};
use text::Line;

// The offset of a column of row `row`, which starts at `start`, or nothing where the row is too
// short. It reads no further than the column.
fn offset_of(t: &[u32], row: usize, start: usize, col: usize) -> Option<usize>
    requires { Stands t.now row start start }
    ensures { result ≡ column_of t.now row col }
{
    let mut left = col;
    for i in start..t.len() {
        if t[i] == 10 {
            return None;
        }
        if left == 0 {
            return Some(i);
        }
        left -= 1;
    }
    None
}

// `matching_bracket_pos` of the Rust, with the refusals of a text: where the partner stands, or
// none if the row or the column is outside the text, no bracket stands there, or none balances it.
pub fn matching_bracket_pos(t: &[u32], row: u32, col: u32) -> Partner
    ensures { result ≡ matching_bracket_pos t.now row col }
{
    let f = text_check::text_refusal(t);
    if f != 0 {
        return Partner::Refused(f);
    }
    let wanted = row as usize;
    let rows = text::row_count(t);
    if wanted >= rows {
        return Partner::None;
    }
    let l = text::offsets::row_line(t, rows, wanted);
    let f = offset_of(t, l.row, l.start, col as usize);
    match f {
        Some(at) => walks::partner(t, l, at),
        None => Partner::None,
    }
}

// Where the % key goes to from a column of the row `l`, or none where it stays: the partner of the
// first round, square or curly bracket at or after the column. The Rust's `match_bracket` does so.
pub fn match_bracket_from(t: &[u32], l: Line, col: usize) -> Partner
    requires { ClearLine t.now l }
    ensures { result ≡ key_from t.now l.row col }
{
    let f = find::first_bracket(text::offsets::row(t, l), col);
    match f {
        Some(i) => {
            let start = l.start;
            walks::partner(t, l, start + i)
        }
        None => Partner::None,
    }
}
