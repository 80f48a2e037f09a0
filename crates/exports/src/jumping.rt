// Jumps over one text.
ghost use Rattle.std.specs.Prelude.{◌≡◌, [], ◌∷◌};
ghost use Rattle.call_points.specs.Points.{points};
ghost use Rattle.call_bytes.specs.Reply.{Replied, fitting};
ghost use Rattle.call_bytes.specs.Joined.{AnsweredAll, unfit_all};
ghost use Rattle.call_texts.specs.Carets.{caret_six};
ghost use Rattle.jumps.specs.Jumps.{places_left};
ghost use Rattle.call_jumps.specs.Jumping.{jumping};

use call_bytes::fill_three;

// Jumps over a text of code points, each from where the one before ended. `pairs` holds a kind and
// a count for each, `answers` takes a row and a column for each; the caret is six numbers.
#[unsafe(no_mangle)]
pub extern "C" fn tsivareza_jumps_u32(
    text: &[u32],
    starts: &[u32],
    content: u32,
    folds: &[u32],
    list: &[u32],
    row: u32,
    col: u32,
    held: u32,
    sticky: u32,
    kept: u32,
    offset: u32,
    pairs: &[u32],
    answers: &mut [u32],
    out: &mut [u32; 6],
) -> u32
    ensures replied { Replied (jumping starts.now content
        (caret_six row col held sticky kept offset) pairs.now answers.old
        text.now folds.now list.now) out.old result
        out.new }
    ensures answers_after { answers.new ≡ places_left text.now
        starts.now content folds.now list.now
        (caret_six row col held sticky kept offset) pairs.now answers.old }
{
    call_jumps::jumps(
        text, starts, content, folds, list, row, col, held, sticky, kept, offset, pairs, answers,
        out,
    )
}

// The same over a text, folds and a list of bytes, whose code points share the room.
#[unsafe(no_mangle)]
pub extern "C" fn tsivareza_jumps(
    text: &[u8],
    folds: &[u8],
    list: &[u8],
    room: &mut [u32],
    starts: &[u32],
    content: u32,
    row: u32,
    col: u32,
    held: u32,
    sticky: u32,
    kept: u32,
    offset: u32,
    pairs: &[u32],
    answers: &mut [u32],
    out: &mut [u32; 6],
) -> u32
    ensures answered_all { AnsweredAll (text.now ∷ folds.now ∷ list.now
        ∷ []) room.old out.old (jumping starts.now content
        (caret_six row col held sticky kept offset) pairs.now answers.old
        (points text.now) (points folds.now) (points list.now)) result
        room.new out.new }
    ensures answers_after { answers.new ≡ fitting (unfit_all (text.now ∷
        folds.now ∷ list.now ∷ []) room.old) (places_left
        (points text.now) starts.now content (points folds.now)
        (points list.now) (caret_six row col held sticky kept offset)
        pairs.now answers.old) answers.old }
{
    let f = fill_three(text, folds, list, room);
    if f != 0 {
        return f;
    }
    let n = text.len() / 4;
    let m = n + folds.len() / 4;
    let end = m + list.len() / 4;
    let all: &[u32] = room;
    call_jumps::jumps(
        &all[..n],
        starts,
        content,
        &all[n..m],
        &all[m..end],
        row,
        col,
        held,
        sticky,
        kept,
        offset,
        pairs,
        answers,
        out,
    )
}
