// Positions after an edit: a stretch of a text, from one position up to another, gives way to code
// points. Where a position of the old text goes is found without a look at the text.
// From document 02, #102.

#![tactic(auto)]

ghost use Rattle.std.specs.Prelude.{◌≡◌, ◌≤◌, length};
ghost use Rattle.edit_positions.specs.Change.{is_before, end_of, moved_by, Near, Fits};

use text::Position;

// What an edit changes: the stretch from `from` up to `to` has given way to one from `from` up to
// `end`.
#[derive(Clone, Copy)]
pub struct Change {
    pub from: Position,
    pub to: Position,
    pub end: Position,
}

// Whether p stands before q: in an earlier row, or in its row at an earlier column.
pub fn is_before(p: Position, q: Position) -> bool
    ensures { result ≡ is_before p q }
{
    if p.row == q.row {
        return p.col < q.col;
    }
    p.row < q.row
}

// Where `points` end that are put at p.
pub fn end_of(p: Position, points: &[u32]) -> Position
    requires { Near p × (length points.now ≤ 1048576) }
    ensures { result ≡ end_of p points.now }
{
    let n = points.len();
    let s = text::separators(points);
    if s == 0 {
        return Position {
            row: p.row,
            col: p.col + n,
        };
    }
    let l = text::offsets::up(points, s, n, 0);
    Position {
        row: p.row + s,
        col: n - l.start,
    }
}

// Where a position goes: before the stretch it stays, inside it goes to its start, and from its end
// on it goes with its character. So one at the point of an insert goes behind what is inserted.
pub fn moved(c: Change, x: Position) -> Position
    requires { Fits c x }
    ensures { result ≡ moved_by c x }
{
    let from = c.from;
    let to = c.to;
    let end = c.end;
    if is_before(x, from) {
        return x;
    }
    if is_before(x, to) {
        return from;
    }
    if x.row == to.row {
        return Position {
            row: end.row,
            col: end.col + (x.col - to.col),
        };
    }
    Position {
        row: end.row + (x.row - to.row),
        col: x.col,
    }
}
