// Folds over the rows of a text, lent as three numbers each: start, end, closed (0 or 1).
// From document 01, refusal 5; `Fold::hides`, the visible rows of `SnapshotFoldProvider`, and
// `closed_fold_at` of motions.rs.
ghost use Rattle.std.specs.Prelude.{◌≡◌, ◌<◌, Some};
ghost use Rattle.folds.specs.Folds.{bad_fold, fold_refusal, fold_hides, hidden};
ghost use Rattle.folds.specs.Folds.{next_visible, prev_visible, closed_from, closed_fold_at};
ghost use Rattle.folds.specs.Cover.{cover_of};

// A fold that runs backwards, ends outside the rows, or is neither open nor closed.
fn bad_fold(rows: usize, s: u32, e: u32, closed: u32) -> bool
    ensures { result ≡ bad_fold rows s e closed }
{
    (s > e) | ((e as usize >= rows) | (closed > 1))
}

// 5 where the folds are refused: not three numbers each, over 256, a start after its end, an end
// outside the rows, or a mark above 1; else 0.
pub fn fold_refusal(folds: &[u32], rows: usize) -> u32
    ensures { result ≡ fold_refusal folds.now rows }
{
    if folds.len() % 3 != 0 {
        return 5;
    }
    if folds.len() / 3 > 256 {
        return 5;
    }
    for fold in folds.chunks_exact(3) {
        if bad_fold(rows, fold[0], fold[1], fold[2]) {
            return 5;
        }
    }
    0
}

// `Fold::hides`: a closed fold hides the rows after its start up to its end.
fn fold_hides(row: usize, s: u32, e: u32, closed: u32) -> bool
    ensures { result ≡ fold_hides row s e closed }
{
    (closed == 1) & (((s as usize) < row) & (row <= e as usize))
}

// The first closed fold that hides the row: where it starts and ends.
fn cover(folds: &[u32], row: usize) -> Option<(usize, usize)>
    ensures { result ≡ cover_of folds.now row }
{
    for fold in folds.chunks_exact(3) {
        let s = fold[0];
        let e = fold[1];
        if fold_hides(row, s, e, fold[2]) {
            return Some((s as usize, e as usize));
        }
    }
    None
}

// Whether some closed fold hides the row.
pub fn is_row_hidden(folds: &[u32], row: usize) -> bool
    ensures { result ≡ hidden folds.now row }
{
    match cover(folds, row) {
        Some((s, e)) => true,
        None => false,
    }
}

// The first row after `row` that no fold hides. From a hidden row it goes on behind the end of a
// fold that hides it, so that each fold is passed at most once: a pass over the folds for each
// fold, not for each row. A `while`: the step differs from turn to turn.
pub fn next_visible_row(folds: &[u32], rows: usize, row: usize) -> Option<usize>
    requires { (fold_refusal folds.now rows ≡ 0) × (row < rows) }
    ensures { result ≡ next_visible folds.now rows row }
{
    let mut r = row + 1;
    while r < rows {
        match cover(folds, r) {
            Some((s, e)) => {
                r = e + 1;
            }
            None => {
                return Some(r);
            }
        }
    }
    None
}

// The last row before `row` that no fold hides. From a hidden row it goes on at the start of a fold
// that hides it. A `while`: the step differs from turn to turn.
pub fn prev_visible_row(folds: &[u32], row: usize) -> Option<usize>
    ensures { result ≡ prev_visible folds.now row }
{
    let mut r = row;
    while r > 0 {
        let b = r - 1;
        match cover(folds, b) {
            Some((s, e)) => {
                r = s + 1;
            }
            None => {
                return Some(b);
            }
        }
    }
    None
}

// The closed fold at a row that shows: its first row is that row, and it ends before the next row
// that shows, or with the last row with content.
fn closed_from(folds: &[u32], rows: usize, content: usize, first: usize) -> Option<(usize, usize)>
    requires { (fold_refusal folds.now rows ≡ 0) × (first < rows) × (0 < content) }
    ensures { result ≡ closed_from folds.now rows content (Some first) }
{
    if !is_row_hidden(folds, first + 1) {
        return None;
    }
    match next_visible_row(folds, rows, first) {
        Some(next) => Some((first, next - 1)),
        None => Some((first, content - 1)),
    }
}

// `closed_fold_at`: the closed fold at a row, whether it shows or is hidden.
pub fn closed_fold_at(
    folds: &[u32],
    rows: usize,
    content: usize,
    row: usize,
) -> Option<(usize, usize)>
    requires { (fold_refusal folds.now rows ≡ 0) × (row < rows) × (0 < content) }
    ensures { result ≡ closed_fold_at folds.now rows content row }
{
    if !is_row_hidden(folds, row) {
        return closed_from(folds, rows, content, row);
    }
    match prev_visible_row(folds, row) {
        Some(first) => closed_from(folds, rows, content, first),
        None => None,
    }
}
