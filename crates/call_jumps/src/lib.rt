// Jumps over one text, by numbers (document 02, #114). The caret is six numbers, in and out, as in
// the screen moves that remember. The call puts the caret at the end into `out` and answers 0, or
// answers the number of a refusal and leaves `out` and the answers as they were.

#![tactic(auto)]

ghost use Rattle.std.specs.Prelude.{◌≡◌};
ghost use Rattle.call_bytes.specs.Reply.{Replied};
ghost use Rattle.call_texts.specs.Carets.{caret_six};
ghost use Rattle.jumps.specs.Jumps.{places_left};
ghost use Rattle.call_jumps.specs.Jumping.{jumping};

use call_texts::{caret_six, place_six};

// `jumps` over a text of code points, with its row starts, folds and a keyword list. `pairs` holds
// a kind and a count for each jump, and `answers` takes a row and a column for each.
pub fn jumps(
    text: &[u32],
    starts: &[u32],
    content: u32,
    folds: &[u32],
    list: &[u32],
    row: u32,
    col: u32,
    held: u32,
    sticky: u32,
    kept: u32,
    offset: u32,
    pairs: &[u32],
    answers: &mut [u32],
    out: &mut [u32; 6],
) -> u32
    ensures replied { Replied (jumping starts.now content
        (caret_six row col held sticky kept offset) pairs.now answers.old
        text.now folds.now list.now) out.old result
        out.new }
    ensures answers_after { answers.new ≡ places_left text.now
        starts.now content folds.now list.now
        (caret_six row col held sticky kept offset) pairs.now answers.old }
{
    let k = caret_six(row, col, held, sticky, kept, offset);
    let m = jumps::jumps(k, text, starts, content, folds, list, pairs, answers);
    place_six(m, out)
}
