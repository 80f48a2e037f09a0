// The motions of a text and a caret, the viewport and the searches, with a table of row starts.
ghost use Rattle.call_points.specs.Points.{points};
ghost use Rattle.call_bytes.specs.Reply.{Replied, Answered};
ghost use Rattle.call_texts.specs.Carets.{caret_of};
ghost use Rattle.call_texts.specs.Moves.{motions};
ghost use Rattle.call_texts.specs.Viewports.{viewports};
ghost use Rattle.call_texts.specs.Seeks.{seeks};
ghost use Rattle.call_motion_rows.specs.Asks.{by_table};

use call_bytes::fill;

// `motion_rows` on code points.
#[unsafe(no_mangle)]
pub extern "C" fn tsivareza_motion_rows_u32(
    op: u32,
    text: &[u32],
    starts: &[u32],
    content: u32,
    row: u32,
    col: u32,
    held: u32,
    sticky: u32,
    count: u32,
    out: &mut [u32; 4],
) -> u32
    ensures { Replied (by_table text.now starts.now content (motions
        op count (caret_of row col held sticky) text.now)) out.old result
        out.new }
{
    call_motion_rows::motion_rows(
        op, text, starts, content, row, col, held, sticky, count, out,
    )
}

// `motion_rows` on bytes.
#[unsafe(no_mangle)]
pub extern "C" fn tsivareza_motion_rows(
    op: u32,
    text: &[u8],
    starts: &[u32],
    content: u32,
    room: &mut [u32],
    row: u32,
    col: u32,
    held: u32,
    sticky: u32,
    count: u32,
    out: &mut [u32; 4],
) -> u32
    ensures { Answered text.now room.old out.old
        (by_table (points text.now) starts.now content (motions op count
        (caret_of row col held sticky) (points text.now))) result room.new
        out.new }
{
    let f = fill(text, room);
    if f != 0 {
        return f;
    }
    let n = text.len() / 4;
    call_motion_rows::motion_rows(
        op,
        &room[..n],
        starts,
        content,
        row,
        col,
        held,
        sticky,
        count,
        out,
    )
}

// `viewport_rows` on code points.
#[unsafe(no_mangle)]
pub extern "C" fn tsivareza_viewport_rows_u32(
    op: u32,
    text: &[u32],
    starts: &[u32],
    content: u32,
    row: u32,
    col: u32,
    held: u32,
    sticky: u32,
    top: u32,
    height: u16,
    offset: u32,
    out: &mut [u32; 4],
) -> u32
    ensures { Replied (by_table text.now starts.now content
        (viewports op top height offset (caret_of row col held sticky) text.now))
        out.old result out.new }
{
    call_motion_rows::viewport_rows(
        op, text, starts, content, row, col, held, sticky, top, height, offset, out,
    )
}

// `viewport_rows` on bytes.
#[unsafe(no_mangle)]
pub extern "C" fn tsivareza_viewport_rows(
    op: u32,
    text: &[u8],
    starts: &[u32],
    content: u32,
    room: &mut [u32],
    row: u32,
    col: u32,
    held: u32,
    sticky: u32,
    top: u32,
    height: u16,
    offset: u32,
    out: &mut [u32; 4],
) -> u32
    ensures { Answered text.now room.old out.old
        (by_table (points text.now) starts.now content (viewports op top
        height offset (caret_of row col held sticky) (points text.now))) result
        room.new out.new }
{
    let f = fill(text, room);
    if f != 0 {
        return f;
    }
    let n = text.len() / 4;
    call_motion_rows::viewport_rows(
        op,
        &room[..n],
        starts,
        content,
        row,
        col,
        held,
        sticky,
        top,
        height,
        offset,
        out,
    )
}

// `seek_rows` on code points.
#[unsafe(no_mangle)]
pub extern "C" fn tsivareza_seek_rows_u32(
    op: u32,
    text: &[u32],
    starts: &[u32],
    content: u32,
    row: u32,
    col: u32,
    held: u32,
    sticky: u32,
    x: u32,
    out: &mut [u32; 5],
) -> u32
    ensures { Replied (by_table text.now starts.now content (seeks
        op x (caret_of row col held sticky) text.now)) out.old result
        out.new }
{
    call_motion_rows::seek_rows(op, text, starts, content, row, col, held, sticky, x, out)
}

// `seek_rows` on bytes.
#[unsafe(no_mangle)]
pub extern "C" fn tsivareza_seek_rows(
    op: u32,
    text: &[u8],
    starts: &[u32],
    content: u32,
    room: &mut [u32],
    row: u32,
    col: u32,
    held: u32,
    sticky: u32,
    x: u32,
    out: &mut [u32; 5],
) -> u32
    ensures { Answered text.now room.old out.old
        (by_table (points text.now) starts.now content (seeks op x
        (caret_of row col held sticky) (points text.now))) result room.new
        out.new }
{
    let f = fill(text, room);
    if f != 0 {
        return f;
    }
    let n = text.len() / 4;
    call_motion_rows::seek_rows(
        op,
        &room[..n],
        starts,
        content,
        row,
        col,
        held,
        sticky,
        x,
        out,
    )
}
