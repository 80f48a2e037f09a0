// The walks from a bracket to its partner, of `matching_bracket_pos` in motions.rs: one walk in one
// direction keeps the depth and the row beside the offset.
ghost use Rattle.std.specs.Prelude.{◌≡◌, ◌-◌, ◌≤◌};
ghost use Rattle.bracket_walks.specs.Matching.{close_from, open_below, partner_of, placed};
ghost use Rattle.bracket_walks.specs.Walk.{Starts, Goes, Hands};

use crate::Partner;
use bracket_kinds::{Side, kinds};
use text::{Line, Position};

// The Rust's walk forward, from an offset `at` of the row `l`: where the first of the `deep`
// brackets that are open there is closed.
pub fn match_forward(
    t: &[u32],
    l: Line,
    at: usize,
    deep: usize,
    opening: u32,
    closing: u32,
) -> Partner
    requires { Goes t.now l.row l.start at deep × Hands opening closing }
    ensures { result ≡ placed t.now
        (close_from opening closing t.now at deep) }
{
    let mut depth = deep;
    let mut row = l.row;
    let mut start = l.start;
    for j in at..t.len() {
        let x = t[j];
        if x == closing {
            depth -= 1;
            if depth == 0 {
                return place(row, start, j);
            }
        } else if x == opening {
            depth += 1;
        } else if x == 10 {
            row += 1;
            start = j + 1;
        }
    }
    Partner::None
}

// The Rust's walk back, from an offset `at` of the row `l`: where the last of the `deep` brackets
// that are closed from there on is opened.
pub fn match_backward(
    t: &[u32],
    l: Line,
    at: usize,
    deep: usize,
    opening: u32,
    closing: u32,
) -> Partner
    requires { Goes t.now l.row l.start at deep × Hands opening closing }
    ensures { result ≡ placed t.now
        (open_below opening closing t.now at deep) }
{
    let mut depth = deep;
    let mut row = l.row;
    for b in (0..at).rev() {
        let x = t[b];
        if x == opening {
            depth -= 1;
            if depth == 0 {
                let l = text::offsets::up(t, row, b, 0);
                return place(row, l.start, b);
            }
        } else if x == closing {
            depth += 1;
        } else if x == 10 {
            row -= 1;
        }
    }
    Partner::None
}

// The offset `at` of the row `row`, which starts at `start`, as a row and a column.
fn place(row: usize, start: usize, at: usize) -> Partner
    requires { (start ≤ at) × (row ≤ at) × (at ≤ 1048576) }
    ensures { result ≡ Partner.There (record { row = row; col = at - start }) }
{
    let col = at - start;
    Partner::There(Position { row, col })
}

// The partner of what stands at an offset of the row `l`, or none.
pub fn partner(t: &[u32], l: Line, at: usize) -> Partner
    requires { Starts t.now l at }
    ensures { result ≡ placed t.now (partner_of t.now at) }
{
    let s = kinds::side_of(t[at]);
    match s {
        Side::Open(k) => match_forward(t, l, at + 1, 1, kinds::open_code(k), kinds::close_code(k)),
        Side::Close(k) => match_backward(t, l, at, 1, kinds::open_code(k), kinds::close_code(k)),
        Side::Neither => Partner::None,
    }
}
