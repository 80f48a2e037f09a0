// The screen moves that remember their offset within a segment.
ghost use Rattle.std.specs.Prelude.{[], ◌∷◌};
ghost use Rattle.call_points.specs.Points.{points};
ghost use Rattle.call_bytes.specs.Reply.{Replied};
ghost use Rattle.call_bytes.specs.Joined.{AnsweredAll};
ghost use Rattle.call_texts.specs.Carets.{caret_six};
ghost use Rattle.call_folds.specs.Kept.{screens_kept};

use call_bytes::fill_two;

// A screen move that remembers over a text of code points, with folds. The caret is six numbers, in
// and out.
#[unsafe(no_mangle)]
pub extern "C" fn tsivareza_screen_kept_u32(
    op: u32,
    text: &[u32],
    folds: &[u32],
    row: u32,
    col: u32,
    held: u32,
    sticky: u32,
    kept: u32,
    offset: u32,
    mode: u32,
    width: u16,
    count: u32,
    tabstop: u32,
    out: &mut [u32; 6],
) -> u32
    ensures { Replied (screens_kept op mode width count tabstop
        (caret_six row col held sticky kept offset) text.now folds.now)
        out.old result out.new }
{
    call_folds::screen_kept(
        op, text, folds, row, col, held, sticky, kept, offset, mode, width, count, tabstop, out,
    )
}

// The same over a text and folds of bytes, which share the room.
#[unsafe(no_mangle)]
pub extern "C" fn tsivareza_screen_kept(
    op: u32,
    text: &[u8],
    folds: &[u8],
    room: &mut [u32],
    row: u32,
    col: u32,
    held: u32,
    sticky: u32,
    kept: u32,
    offset: u32,
    mode: u32,
    width: u16,
    count: u32,
    tabstop: u32,
    out: &mut [u32; 6],
) -> u32
    ensures { AnsweredAll (text.now ∷ folds.now ∷ []) room.old
        out.old (screens_kept op mode width count tabstop
        (caret_six row col held sticky kept offset) (points text.now)
        (points folds.now)) result room.new out.new }
{
    let f = fill_two(text, folds, room);
    if f != 0 {
        return f;
    }
    let n = text.len() / 4;
    let end = n + folds.len() / 4;
    let all: &[u32] = room;
    call_folds::screen_kept(
        op,
        &all[..n],
        &all[n..end],
        row,
        col,
        held,
        sticky,
        kept,
        offset,
        mode,
        width,
        count,
        tabstop,
        out,
    )
}
