// Stretches of rows at which there is no closed fold, each found in one pass over the folds.
ghost use Rattle.fold_stretches.specs.Stretches.{Apart, NoFold};

use crate::Stretch;

// A stretch, cut where this fold hides rows: on the side of it on which `row` is.
fn apart(w: Stretch, row: usize, s: u32, e: u32, closed: u32) -> Stretch
    ensures { Apart w s e closed result }
{
    if closed != 1 {
        return w;
    }
    if s >= e {
        return w;
    }
    let first = s as usize;
    let last = e as usize;
    if last < row {
        if last < w.lo {
            return w;
        }
        return Stretch {
            lo: last + 1,
            hi: w.hi,
        };
    }
    if w.hi <= first {
        return w;
    }
    Stretch {
        lo: w.lo,
        hi: first,
    }
}

// The rows around a row at which there is no closed fold; where there is one at the row itself, the
// stretch has rows before it or none.
pub fn around(folds: &[u32], rows: usize, row: usize) -> Stretch
    ensures { NoFold folds.now result }
{
    let mut w = Stretch { lo: 0, hi: rows };
    for fold in folds.chunks_exact(3) {
        w = apart(w, row, fold[0], fold[1], fold[2]);
    }
    w
}

// The same from a stretch that is known, which stays as it is where it has the row.
pub fn near(folds: &[u32], rows: usize, w: Stretch, row: usize) -> Stretch
    requires { NoFold folds.now w }
    ensures { NoFold folds.now result }
{
    if (w.lo <= row) & (row < w.hi) {
        return w;
    }
    around(folds, rows, row)
}
