// Up, down, the screen and the viewport.
ghost use Rattle.std.specs.Prelude.{[], ◌∷◌};
ghost use Rattle.call_points.specs.Points.{points};
ghost use Rattle.call_bytes.specs.Reply.{Replied, Answered};
ghost use Rattle.call_bytes.specs.Joined.{AnsweredAll};
ghost use Rattle.call_texts.specs.Carets.{caret_of};
ghost use Rattle.call_texts.specs.Viewports.{viewports};
ghost use Rattle.call_folds.specs.Upright.{verticals};

use call_bytes::{fill, fill_two};

// A vertical or screen motion over a text of code points, with folds.
#[unsafe(no_mangle)]
pub extern "C" fn tsivareza_vertical_u32(
    op: u32,
    text: &[u32],
    folds: &[u32],
    row: u32,
    col: u32,
    held: u32,
    sticky: u32,
    mode: u32,
    width: u16,
    count: u32,
    tabstop: u32,
    out: &mut [u32; 4],
) -> u32
    ensures { Replied (verticals op mode width count tabstop (caret_of row col held sticky)
        text.now folds.now) out.old result out.new }
{
    call_folds::vertical(
        op, text, folds, row, col, held, sticky, mode, width, count, tabstop, out,
    )
}

// The same over a text and folds of bytes, which share the room.
#[unsafe(no_mangle)]
pub extern "C" fn tsivareza_vertical(
    op: u32,
    text: &[u8],
    folds: &[u8],
    room: &mut [u32],
    row: u32,
    col: u32,
    held: u32,
    sticky: u32,
    mode: u32,
    width: u16,
    count: u32,
    tabstop: u32,
    out: &mut [u32; 4],
) -> u32
    ensures { AnsweredAll (text.now ∷ folds.now ∷ []) room.old
        out.old (verticals op mode width count tabstop (caret_of row col held sticky)
        (points text.now) (points folds.now)) result room.new
        out.new }
{
    let f = fill_two(text, folds, room);
    if f != 0 {
        return f;
    }
    let n = text.len() / 4;
    let end = n + folds.len() / 4;
    let all: &[u32] = room;
    call_folds::vertical(
        op,
        &all[..n],
        &all[n..end],
        row,
        col,
        held,
        sticky,
        mode,
        width,
        count,
        tabstop,
        out,
    )
}

// A viewport motion over a text of code points.
#[unsafe(no_mangle)]
pub extern "C" fn tsivareza_viewport_u32(
    op: u32,
    text: &[u32],
    row: u32,
    col: u32,
    held: u32,
    sticky: u32,
    top: u32,
    height: u16,
    offset: u32,
    out: &mut [u32; 4],
) -> u32
    ensures { Replied
        (viewports op top height offset (caret_of row col held sticky) text.now)
        out.old result out.new }
{
    call_texts::viewport(op, text, row, col, held, sticky, top, height, offset, out)
}

// A viewport motion over a text of bytes.
#[unsafe(no_mangle)]
pub extern "C" fn tsivareza_viewport(
    op: u32,
    text: &[u8],
    room: &mut [u32],
    row: u32,
    col: u32,
    held: u32,
    sticky: u32,
    top: u32,
    height: u16,
    offset: u32,
    out: &mut [u32; 4],
) -> u32
    ensures { Answered text.now room.old out.old (viewports
        op top height offset (caret_of row col held sticky) (points text.now)) result
        room.new out.new }
{
    let f = fill(text, room);
    if f != 0 {
        return f;
    }
    let n = text.len() / 4;
    call_texts::viewport(
        op,
        &room[..n],
        row,
        col,
        held,
        sticky,
        top,
        height,
        offset,
        out,
    )
}
