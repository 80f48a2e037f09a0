// The other carets of a text that was edited: a host that keeps several corrects each by the change
// that the edit answers with. From document 02, #102.

#![tactic(auto)]

ghost use Rattle.std.specs.Prelude.{◌≡◌};
ghost use Rattle.edit_others.specs.Others.{followed};

use edit_positions::Change;
use motions::{Caret, Moved};

// A caret after a change, as `edit_carets::corrected` has it; 4 where a row or a column could
// outgrow a caret. No caret that stands in the text of an accepted edit is refused
// (`others_follow`).
pub fn follow(k: Caret, c: Change) -> Moved
    ensures { result ≡ followed k c }
{
    let from = c.from;
    let end = c.end;
    if from.row > 4294967295 {
        return Moved::Refused(4);
    }
    if from.col > 4294967295 {
        return Moved::Refused(4);
    }
    if end.row > 4294967295 - k.row as usize {
        return Moved::Refused(4);
    }
    if end.col > 4294967295 - k.col as usize {
        return Moved::Refused(4);
    }
    Moved::To(edit_carets::corrected(k, c))
}
