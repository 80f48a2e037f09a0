// Folds that go with an edit of their text, in place: three numbers each, start, end, closed (0 or
// 1), in the first 3 * n places of a buffer. From document 02, #102.

#![tactic(auto)]

ghost use Rattle.std.specs.Prelude.{◌≡◌, [], ◌∷◌, ◌+◌, ◌≤◌, length};
ghost use Rattle.edit_places.specs.Replaced.{Over};
ghost use Rattle.edit_folds.specs.Folds.{mapped_row, is_lost, RowMaps, FoldsMap};
ghost use Rattle.edit_folds.specs.Folds.{FoldsKept, FoldsMapped};

// A row of the old text in the new one, where a stretch from row r1 to row r2 gives way to k
// separators: up to r1 it stays, up to r2 it becomes r1, and behind r2 it moves up by r2 - r1 and
// down by k.
pub fn map_row(x: u32, r1: u32, r2: u32, k: u32) -> u32
    requires { RowMaps r1 r2 k x }
    ensures { result ≡ mapped_row r1 r2 k x }
{
    if x <= r1 {
        return x;
    }
    if x <= r2 {
        return r1;
    }
    x - (r2 - r1) + k
}

// Whether the ends s and e differ, and what they become, x and y, does not.
fn is_lost(s: u32, e: u32, x: u32, y: u32) -> bool
    ensures { result ≡ is_lost s e x y }
{
    if s == e {
        return false;
    }
    x == y
}

// Writes a fold over the three places from `at` on.
fn put_fold(folds: &mut [u32], at: usize, s: u32, e: u32, closed: u32)
    requires { at + 3 ≤ length folds.old }
    ensures { Over folds.old at (s ∷ e ∷ closed ∷ []) folds.new }
{
    folds[at] = s;
    folds[at + 1] = e;
    folds[at + 2] = closed;
}

// Moves the folds that are kept to the front, their rows mapped; answers how many.
fn keep_folds(folds: &mut [u32], n: usize, r1: u32, r2: u32, k: u32) -> usize
    requires { FoldsMap folds.old n r1 r2 k }
    ensures { FoldsKept (mapped_row r1 r2 k) folds.old n result folds.new }
{
    let mut w: usize = 0;
    for i in 0..n {
        let s = folds[3 * i];
        let e = folds[3 * i + 1];
        let closed = folds[3 * i + 2];
        let x = map_row(s, r1, r2, k);
        let y = map_row(e, r1, r2, k);
        if !is_lost(s, e, x, y) {
            put_fold(folds, 3 * w, x, y, closed);
            w += 1;
        }
    }
    w
}

// Maps the rows of n folds, drops those whose differing ends become one, and writes zeros to the
// freed places, the last of the old folds; answers how many are left. Their order stays.
pub fn map_folds(folds: &mut [u32], n: usize, r1: u32, r2: u32, k: u32) -> usize
    requires { FoldsMap folds.old n r1 r2 k }
    ensures { FoldsMapped (mapped_row r1 r2 k) folds.old n result
        folds.new }
{
    let kept = keep_folds(folds, n, r1, r2, k);
    edit_places::put::put_zeros(folds, 3 * kept, 3 * n - 3 * kept);
    kept
}
