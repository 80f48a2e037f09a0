// One jump, of inputs that were accepted. Rows and columns come from the table of row starts.
ghost use Rattle.std.specs.Prelude.{◌≡◌, max};
ghost use Rattle.text.specs.Offsets.{row_start};
ghost use Rattle.brackets.specs.Find.{key_from};
ghost use Rattle.word_kinds.specs.Spots.{place_of, Lands};
ghost use Rattle.word_kinds.specs.Lent.{kinds_by};
ghost use Rattle.jumps.specs.Leaps.{motion_of, on_partner, Leaps};
ghost use Rattle.jumps.specs.Footings.{TabledRow, TabledPlace, TabledSpot, LeapFooting};

use bracket_walks::Partner;
use fold_stretches::Stretch;
use text::{Line, Position};
use word_kinds::{Alphabet, Spot};
use word_rounds::Motion;
use words::Walked;

// The word motion of a kind: 0 `w`, 1 `b`, and else `e`.
fn motion_of(kind: u32) -> Motion
    ensures { result ≡ motion_of kind }
{
    if kind == 0 {
        return Motion::Fwd;
    }
    if kind == 1 {
        return Motion::Back;
    }
    Motion::End
}

// Where a row starts, by the table.
pub fn start_of(t: &[u32], table: &[u32], row: usize) -> usize
    requires { TabledRow t.now table.now row }
    ensures { result ≡ row_start t.now row }
{
    table[row] as usize
}

// The spot of a place in the text, by the table.
fn spot_of(t: &[u32], table: &[u32], q: Position) -> Spot
    requires { TabledPlace t.now table.now q }
    ensures { Lands t.now result q }
{
    let row = q.row;
    let start = start_of(t, table, row);
    Spot {
        row: row,
        at: start + q.col,
    }
}

// `%`: to the partner of the first bracket at or after the place in its row, or nowhere.
fn to_partner(t: &[u32], table: &[u32], p: Spot) -> Spot
    requires { TabledSpot t.now table.now p }
    ensures { Lands t.now result (on_partner (place_of t.now p)
        (key_from t.now p.row (place_of t.now p).col)) }
{
    let row = p.row;
    let start = start_of(t, table, row);
    let l = Line {
        row: row,
        start: start,
    };
    match brackets::matching::match_bracket_from(t, l, p.at - start) {
        Partner::There(q) => spot_of(t, table, q),
        Partner::None => p,
        Partner::Refused(_) => p,
    }
}

// One jump: its kind and count, from a place, with a stretch of rows without closed folds that is
// known.
pub fn leap(
    t: &[u32],
    table: &[u32],
    folds: &[u32],
    by: &Alphabet<'_>,
    kind: u32,
    count: u32,
    w: Stretch,
    p: Spot,
) -> Walked
    requires { LeapFooting t.now table.now folds.now by.now w p }
    ensures { Leaps t.now folds.now (kinds_by by.now)
        kind count (place_of t.now p) result }
{
    if kind == 3 {
        return Walked {
            spot: to_partner(t, table, p),
            stretch: w,
        };
    }
    words::rounds_from(t, folds, by, motion_of(kind), w, count.max(1), p)
}
