// Out of a closed fold: `fold_jump_fwd` and `fold_jump_back` of motions.rs.
ghost use Rattle.std.specs.Prelude.{◌-◌};
ghost use Rattle.text.specs.Text.{row_len, position};
ghost use Rattle.word_rounds.specs.Rounds.{jump_fwd, jump_back};
ghost use Rattle.word_kinds.specs.Spots.{place_of, Lands};
ghost use Rattle.word_rounds.specs.Turns.{Folded, SpotReady};

use text::offsets;
use word_kinds::Spot;

// The last character of a row, or its only place where it is empty.
fn row_last(t: &[u32], p: Spot, row: usize) -> Spot
    requires { SpotReady t.now p row }
    ensures { Lands t.now result (position row (row_len t.now row - 1)) }
{
    let l = offsets::line_to(t, p.row, p.at, row);
    let n = offsets::row_len(t, l);
    if n == 0 {
        return Spot {
            row: row,
            at: l.start,
        };
    }
    Spot {
        row: row,
        at: l.start + (n - 1),
    }
}

// The first place of a row.
fn row_first(t: &[u32], p: Spot, row: usize) -> Spot
    requires { SpotReady t.now p row }
    ensures { Lands t.now result (position row 0) }
{
    let l = offsets::line_to(t, p.row, p.at, row);
    Spot {
        row: row,
        at: l.start,
    }
}

// From a closed fold to the last character of its last row.
pub fn fold_jump_fwd(t: &[u32], folds: &[u32], rows: usize, content: usize, p: Spot) -> Spot
    requires { Folded t.now folds.now rows content p }
    ensures { Lands t.now result
        (jump_fwd t.now folds.now (place_of t.now p)) }
{
    match folds::closed_fold_at(folds, rows, content, p.row) {
        Some((first, last)) => row_last(t, p, last),
        None => p,
    }
}

// From a closed fold to the first place of its first row.
pub fn fold_jump_back(t: &[u32], folds: &[u32], rows: usize, content: usize, p: Spot) -> Spot
    requires { Folded t.now folds.now rows content p }
    ensures { Lands t.now result
        (jump_back t.now folds.now (place_of t.now p)) }
{
    match folds::closed_fold_at(folds, rows, content, p.row) {
        Some((first, last)) => row_first(t, p, first),
        None => p,
    }
}
