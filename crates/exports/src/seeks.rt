// `%` and the finds within a row.
ghost use Rattle.call_points.specs.Points.{points};
ghost use Rattle.call_bytes.specs.Reply.{Replied, Answered};
ghost use Rattle.call_texts.specs.Carets.{caret_of};
ghost use Rattle.call_texts.specs.Seeks.{seeks};

use call_bytes::fill;

// A search over a text of code points.
#[unsafe(no_mangle)]
pub extern "C" fn tsivareza_seek_u32(
    op: u32,
    text: &[u32],
    row: u32,
    col: u32,
    held: u32,
    sticky: u32,
    x: u32,
    out: &mut [u32; 5],
) -> u32
    ensures { Replied (seeks op x (caret_of row col held sticky) text.now)
        out.old result out.new }
{
    call_texts::seek(op, text, row, col, held, sticky, x, out)
}

// A search over a text of bytes.
#[unsafe(no_mangle)]
pub extern "C" fn tsivareza_seek(
    op: u32,
    text: &[u8],
    room: &mut [u32],
    row: u32,
    col: u32,
    held: u32,
    sticky: u32,
    x: u32,
    out: &mut [u32; 5],
) -> u32
    ensures { Answered text.now room.old out.old (seeks op x
        (caret_of row col held sticky) (points text.now)) result room.new
        out.new }
{
    let f = fill(text, room);
    if f != 0 {
        return f;
    }
    let n = text.len() / 4;
    call_texts::seek(op, &room[..n], row, col, held, sticky, x, out)
}
