// Word motions.
ghost use Rattle.std.specs.Prelude.{[], ◌∷◌};
ghost use Rattle.call_points.specs.Points.{points};
ghost use Rattle.call_bytes.specs.Reply.{Replied};
ghost use Rattle.call_bytes.specs.Joined.{AnsweredAll};
ghost use Rattle.call_texts.specs.Carets.{caret_of};
ghost use Rattle.call_folds.specs.Terms.{is_big, words};

use call_bytes::fill_three;

// A word motion over a text of code points, with folds and a keyword list; big words where `big` is
// not 0.
#[unsafe(no_mangle)]
pub extern "C" fn tsivareza_word_u32(
    op: u32,
    text: &[u32],
    folds: &[u32],
    list: &[u32],
    row: u32,
    col: u32,
    held: u32,
    sticky: u32,
    big: u32,
    count: u32,
    out: &mut [u32; 4],
) -> u32
    ensures { Replied (words op (is_big big) count (caret_of row col held sticky)
        text.now folds.now list.now) out.old result
        out.new }
{
    call_folds::word(
        op, text, folds, list, row, col, held, sticky, big, count, out,
    )
}

// The same over a text, folds and a list of bytes, whose code points share the room.
#[unsafe(no_mangle)]
pub extern "C" fn tsivareza_word(
    op: u32,
    text: &[u8],
    folds: &[u8],
    list: &[u8],
    room: &mut [u32],
    row: u32,
    col: u32,
    held: u32,
    sticky: u32,
    big: u32,
    count: u32,
    out: &mut [u32; 4],
) -> u32
    ensures { AnsweredAll (text.now ∷ folds.now ∷ list.now ∷ [])
        room.old out.old (words op (is_big big) count (caret_of row col held
        sticky) (points text.now) (points folds.now)
        (points list.now)) result room.new out.new }
{
    let f = fill_three(text, folds, list, room);
    if f != 0 {
        return f;
    }
    let n = text.len() / 4;
    let m = n + folds.len() / 4;
    let end = m + list.len() / 4;
    let all: &[u32] = room;
    call_folds::word(
        op,
        &all[..n],
        &all[n..m],
        &all[m..end],
        row,
        col,
        held,
        sticky,
        big,
        count,
        out,
    )
}
