// A caret after an edit of its text: by value, and lent by a host that finds it corrected.
// From document 02, #102. Neither looks at the text.

#![tactic(auto)]

ghost use Rattle.std.specs.Prelude.{◌≡◌, ◌≤◌};
ghost use Rattle.edit_carets.specs.Carets.{cleared_at, Fits, corrected_by};

use edit_positions::Change;
use motions::Caret;
use text::Position;

// Every caret that an edit answers with is made here: it keeps nothing but its position.
pub fn cleared(p: Position) -> Caret
    requires { (p.row ≤ 4294967295) × (p.col ≤ 4294967295) }
    ensures { result ≡ cleared_at p }
{
    Caret::at(p.row as u32, p.col as u32, None)
}

// A caret after the change: before it the caret stays, inside it goes to its start, behind it it
// goes with its character, and at the point of an insert it goes behind what is inserted. The
// sticky column and the offset within a segment are cleared.
pub fn corrected(k: Caret, c: Change) -> Caret
    requires { Fits k c }
    ensures { result ≡ corrected_by k c }
{
    let x = Position {
        row: k.row as usize,
        col: k.col as usize,
    };
    cleared(edit_positions::moved(c, x))
}

// The lent caret is corrected so. A change that `edits` answers with fits the caret that it was
// made with, and every other caret in that text.
pub fn correct(k: &mut Caret, c: Change)
    requires { Fits k.old c }
    ensures { k.new ≡ corrected_by k.old c }
{
    let now = *k;
    let r = corrected(now, c);
    *k = r;
}
