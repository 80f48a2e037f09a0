// Motions of a text and a caret.
ghost use Rattle.call_points.specs.Points.{points};
ghost use Rattle.call_bytes.specs.Reply.{Replied, Answered};
ghost use Rattle.call_texts.specs.Carets.{caret_of};
ghost use Rattle.call_texts.specs.Moves.{motions};

use call_bytes::fill;

// A motion over a text of code points.
#[unsafe(no_mangle)]
pub extern "C" fn tsivareza_motion_u32(
    op: u32,
    text: &[u32],
    row: u32,
    col: u32,
    held: u32,
    sticky: u32,
    count: u32,
    out: &mut [u32; 4],
) -> u32
    ensures { Replied (motions op count (caret_of row col held sticky) text.now)
        out.old result out.new }
{
    call_texts::motion(op, text, row, col, held, sticky, count, out)
}

// A motion over a text of bytes.
#[unsafe(no_mangle)]
pub extern "C" fn tsivareza_motion(
    op: u32,
    text: &[u8],
    room: &mut [u32],
    row: u32,
    col: u32,
    held: u32,
    sticky: u32,
    count: u32,
    out: &mut [u32; 4],
) -> u32
    ensures { Answered text.now room.old out.old (motions op
        count (caret_of row col held sticky) (points text.now)) result room.new
        out.new }
{
    let f = fill(text, room);
    if f != 0 {
        return f;
    }
    let n = text.len() / 4;
    call_texts::motion(op, &room[..n], row, col, held, sticky, count, out)
}
