// Edits of a text that a host keeps in a lent buffer, with its folds in another and a caret in it.
// One definition for both: a stretch of the text gives way to code points. An insert is an empty
// stretch, a delete one that gives way to nothing. From document 02, #102.

#![tactic(auto)]

ghost use Rattle.std.specs.Prelude.{[]};
ghost use Rattle.edits.specs.Edits.{EditsTo};
ghost use Rattle.edits.specs.Editable.{Editable, MakesTo};

use edit_checks::{Checked, Sizes};
use edit_positions::Change;
use motions::Caret;
use text::Position;

// What an accepted edit leaves: how much of the buffers the text and the folds take then, and the
// caret. The change is what any other caret of the text is corrected by.
#[derive(Clone, Copy)]
pub struct Left {
    pub sizes: Sizes,
    pub caret: Caret,
    pub change: Change,
}

// The answer of an edit: what it leaves, or the number that it is refused with.
#[derive(Clone, Copy)]
pub enum Edited {
    Done(Left),
    Refused(u32),
}

// Code points that are none.
const NONE: [u32; 1] = [0];

// The edit itself, once its checks have refused nothing: the text, the folds, and the caret.
pub fn make(
    text: &mut [u32],
    folds: &mut [u32],
    s: Sizes,
    at: Checked,
    p: Position,
    q: Position,
    points: &[u32],
    k: Caret,
) -> Left
    requires { Editable text.old folds.old s at p q points.now k }
    ensures { MakesTo text.old folds.old s p q
        points.now k result
        text.new folds.new }
{
    let end = edit_positions::end_of(p, points);
    let change = Change {
        from: p,
        to: q,
        end: end,
    };
    let r1 = p.row as u32;
    let r2 = q.row as u32;
    let added = (end.row - p.row) as u32;
    let len = s.len - (at.to - at.from) + points.len();
    edit_places::gaps::replace_at(text, s.len, at.from, at.to, points);
    let count = edit_folds::map_folds(folds, s.count, r1, r2, added);
    let sizes = Sizes {
        len: len,
        count: count,
    };
    let caret = edit_carets::corrected(k, change);
    Left {
        sizes: sizes,
        caret: caret,
        change: change,
    }
}

// The stretch from p up to q gives way to `points`. The text is the first `s.len` places of `text`,
// its folds are the first `s.count` of `folds`, and k is a caret in it. Refused are, in this order,
// the text or `points` (1, 2, 3), the caret (4), the folds (5), a position outside the text or q
// before p (11), and a new text that is longer than the buffer or than any text may be (12); then
// nothing has changed. Rows of the stretch become its first row, later rows move with their text,
// and a fold whose differing ends become one row is dropped. Places that become free are 0.
fn edit(
    text: &mut [u32],
    folds: &mut [u32],
    s: Sizes,
    p: Position,
    q: Position,
    points: &[u32],
    k: Caret,
) -> Edited
    ensures { EditsTo text.old folds.old s p q
        points.now k result
        text.new folds.new }
{
    let x = Position {
        row: k.row as usize,
        col: k.col as usize,
    };
    let at = edit_checks::check(text, folds, s, p, q, points, x);
    if at.refusal != 0 {
        return Edited::Refused(at.refusal);
    }
    Edited::Done(make(text, folds, s, at, p, q, points, k))
}

// Puts `points` at the position p of a text. A caret there goes behind them; rows behind p's move
// down by the separators put in.
pub fn insert(
    text: &mut [u32],
    folds: &mut [u32],
    s: Sizes,
    p: Position,
    points: &[u32],
    k: Caret,
) -> Edited
    ensures { EditsTo text.old folds.old s p p
        points.now k result
        text.new folds.new }
{
    edit(text, folds, s, p, p, points, k)
}

// Takes away what stands from p up to q. A caret inside goes to p. It is never refused with 12.
pub fn delete(
    text: &mut [u32],
    folds: &mut [u32],
    s: Sizes,
    p: Position,
    q: Position,
    k: Caret,
) -> Edited
    ensures { EditsTo text.old folds.old s p q [] k result
        text.new folds.new }
{
    let none = NONE;
    edit(text, folds, s, p, q, &none[..0], k)
}
