// The row starts of a text after an edit, in the table that keeps them: starts behind the edit move
// with their text, those of rows that are gone go, and those of new rows come. Freed places become
// 0, and what lies behind the longer of the old and the new starts stays. From document 02, #106.

#![tactic(auto)]

ghost use Rattle.std.specs.Prelude.{map, take, drop};
ghost use Rattle.edit_places.specs.Replaced.{replaced, Over, Refilled};
ghost use Rattle.row_table.specs.Table.{starts_from};
ghost use Rattle.edit_starts.specs.Moved.{moved_start, kept_starts};
ghost use Rattle.edit_starts.specs.Moved.{Movable, Replaceable, Keepable};

// Moves the starts in the places from `from` up to `to`: less `less`, and more by `more`.
fn move_starts(starts: &mut [u32], from: usize, to: usize, less: u32, more: u32)
    requires { Movable starts.old from to less more }
    ensures { Over starts.old from
        (map (moved_start less more) (drop from (take to starts.old)))
        starts.new }
{
    for s in starts[from..to].iter_mut() {
        *s = *s - less + more;
    }
}

// The starts in the places from x up to y, of so many rows, give way to those of `points`, which
// are put at the offset `at`.
fn replace_starts(starts: &mut [u32], rows: usize, x: usize, y: usize, at: usize, points: &[u32])
    requires { Replaceable starts.old rows x y at points.now }
    ensures { Refilled starts.old rows
        (replaced (take rows starts.old) x y (starts_from at points.now))
        starts.new }
{
    let n = text::separators(points);
    if n <= y - x {
        row_table::fill::put_starts(starts, x, at, points);
        edit_places::gaps::close_gap(starts, rows, x + n, y);
        return;
    }
    edit_places::gaps::open_gap(starts, rows, y, n - (y - x));
    row_table::fill::put_starts(starts, x, at, points);
}

// The table of a text of so many rows, once its stretch from the offset a, in row r, up to the
// offset b, in row q, has given way to `points`.
pub fn keep_starts(
    starts: &mut [u32],
    rows: usize,
    r: usize,
    q: usize,
    a: usize,
    b: usize,
    points: &[u32],
)
    requires { Keepable starts.old rows r q a b points.now }
    ensures { Refilled starts.old rows
        (kept_starts (take rows starts.old) r q a b points.now)
        starts.new }
{
    let less = (b - a) as u32;
    let more = points.len() as u32;
    move_starts(starts, q + 1, rows, less, more);
    replace_starts(starts, rows, r + 1, q + 1, a, points);
}
