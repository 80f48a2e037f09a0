// Words, up, down and the screen, with a table of row starts. Long by its lists of parameters, a
// line for each.
ghost use Rattle.std.specs.Prelude.{[], ◌∷◌};
ghost use Rattle.call_points.specs.Points.{points};
ghost use Rattle.call_bytes.specs.Reply.{Replied};
ghost use Rattle.call_bytes.specs.Joined.{AnsweredAll};
ghost use Rattle.call_texts.specs.Carets.{caret_of, caret_six};
ghost use Rattle.call_folds.specs.Terms.{is_big, words};
ghost use Rattle.call_folds.specs.Upright.{verticals};
ghost use Rattle.call_folds.specs.Kept.{screens_kept};
ghost use Rattle.call_motion_rows.specs.Asks.{by_table};

use call_bytes::{fill_three, fill_two};

// `word_rows` on code points.
#[unsafe(no_mangle)]
pub extern "C" fn tsivareza_word_rows_u32(
    op: u32,
    text: &[u32],
    starts: &[u32],
    content: u32,
    folds: &[u32],
    list: &[u32],
    row: u32,
    col: u32,
    held: u32,
    sticky: u32,
    big: u32,
    count: u32,
    out: &mut [u32; 4],
) -> u32
    ensures { Replied (by_table text.now starts.now content (words
        op (is_big big) count (caret_of row col held sticky) text.now
        folds.now list.now)) out.old result out.new }
{
    call_motion_rows::word_rows(
        op, text, starts, content, folds, list, row, col, held, sticky, big, count, out,
    )
}

// `word_rows` on a text, folds and a list of bytes, whose code points share the room.
#[unsafe(no_mangle)]
pub extern "C" fn tsivareza_word_rows(
    op: u32,
    text: &[u8],
    starts: &[u32],
    content: u32,
    folds: &[u8],
    list: &[u8],
    room: &mut [u32],
    row: u32,
    col: u32,
    held: u32,
    sticky: u32,
    big: u32,
    count: u32,
    out: &mut [u32; 4],
) -> u32
    ensures { AnsweredAll (text.now ∷ folds.now ∷ list.now ∷
        []) room.old out.old (by_table (points text.now)
        starts.now content (words op (is_big big) count (caret_of row col held sticky)
        (points text.now) (points folds.now)
        (points list.now))) result room.new out.new }
{
    let f = fill_three(text, folds, list, room);
    if f != 0 {
        return f;
    }
    let n = text.len() / 4;
    let m = n + folds.len() / 4;
    let end = m + list.len() / 4;
    let all: &[u32] = room;
    call_motion_rows::word_rows(
        op,
        &all[..n],
        starts,
        content,
        &all[n..m],
        &all[m..end],
        row,
        col,
        held,
        sticky,
        big,
        count,
        out,
    )
}

// `vertical_rows` on code points.
#[unsafe(no_mangle)]
pub extern "C" fn tsivareza_vertical_rows_u32(
    op: u32,
    text: &[u32],
    starts: &[u32],
    content: u32,
    folds: &[u32],
    row: u32,
    col: u32,
    held: u32,
    sticky: u32,
    mode: u32,
    width: u16,
    count: u32,
    tabstop: u32,
    out: &mut [u32; 4],
) -> u32
    ensures { Replied (by_table text.now starts.now content
        (verticals op mode width count tabstop (caret_of row col held sticky) text.now
        folds.now)) out.old result out.new }
{
    call_motion_rows::vertical_rows(
        op, text, starts, content, folds, row, col, held, sticky, mode, width, count, tabstop, out,
    )
}

// `vertical_rows` on a text and folds of bytes, which share the room.
#[unsafe(no_mangle)]
pub extern "C" fn tsivareza_vertical_rows(
    op: u32,
    text: &[u8],
    starts: &[u32],
    content: u32,
    folds: &[u8],
    room: &mut [u32],
    row: u32,
    col: u32,
    held: u32,
    sticky: u32,
    mode: u32,
    width: u16,
    count: u32,
    tabstop: u32,
    out: &mut [u32; 4],
) -> u32
    ensures { AnsweredAll (text.now ∷ folds.now ∷ [])
        room.old out.old (by_table (points text.now)
        starts.now content (verticals op mode width count tabstop
        (caret_of row col held sticky) (points text.now)
        (points folds.now))) result room.new out.new }
{
    let f = fill_two(text, folds, room);
    if f != 0 {
        return f;
    }
    let n = text.len() / 4;
    let end = n + folds.len() / 4;
    let all: &[u32] = room;
    call_motion_rows::vertical_rows(
        op,
        &all[..n],
        starts,
        content,
        &all[n..end],
        row,
        col,
        held,
        sticky,
        mode,
        width,
        count,
        tabstop,
        out,
    )
}

// `screen_kept_rows` on code points.
#[unsafe(no_mangle)]
pub extern "C" fn tsivareza_screen_kept_rows_u32(
    op: u32,
    text: &[u32],
    starts: &[u32],
    content: u32,
    folds: &[u32],
    row: u32,
    col: u32,
    held: u32,
    sticky: u32,
    kept: u32,
    offset: u32,
    mode: u32,
    width: u16,
    count: u32,
    tabstop: u32,
    out: &mut [u32; 6],
) -> u32
    ensures { Replied (by_table text.now starts.now content
        (screens_kept op mode width count tabstop (caret_six row col held sticky kept offset)
        text.now folds.now)) out.old result out.new }
{
    call_motion_rows::screen_kept_rows(
        op, text, starts, content, folds, row, col, held, sticky, kept, offset, mode, width, count,
        tabstop, out,
    )
}

// `screen_kept_rows` on a text and folds of bytes, which share the room.
#[unsafe(no_mangle)]
pub extern "C" fn tsivareza_screen_kept_rows(
    op: u32,
    text: &[u8],
    starts: &[u32],
    content: u32,
    folds: &[u8],
    room: &mut [u32],
    row: u32,
    col: u32,
    held: u32,
    sticky: u32,
    kept: u32,
    offset: u32,
    mode: u32,
    width: u16,
    count: u32,
    tabstop: u32,
    out: &mut [u32; 6],
) -> u32
    ensures { AnsweredAll (text.now ∷ folds.now ∷ [])
        room.old out.old (by_table (points text.now)
        starts.now content (screens_kept op mode width count tabstop
        (caret_six row col held sticky kept offset) (points text.now)
        (points folds.now))) result room.new out.new }
{
    let f = fill_two(text, folds, room);
    if f != 0 {
        return f;
    }
    let n = text.len() / 4;
    let end = n + folds.len() / 4;
    let all: &[u32] = room;
    call_motion_rows::screen_kept_rows(
        op,
        &all[..n],
        starts,
        content,
        &all[n..end],
        row,
        col,
        held,
        sticky,
        kept,
        offset,
        mode,
        width,
        count,
        tabstop,
        out,
    )
}
