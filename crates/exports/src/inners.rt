// The innermost pair around a position.
ghost use Rattle.call_points.specs.Points.{points};
ghost use Rattle.call_bytes.specs.Reply.{Replied, Answered};
ghost use Rattle.call_texts.specs.Inners.{inner};

use call_bytes::fill;

// `inner_pair` on code points.
#[unsafe(no_mangle)]
pub extern "C" fn tsivareza_inner_pair_u32(
    kind: u32,
    text: &[u32],
    row: u32,
    col: u32,
    out: &mut [u32; 9],
) -> u32
    ensures { Replied (inner kind row col text.now) out.old result
        out.new }
{
    call_texts::inner_pair(kind, text, row, col, out)
}

// `inner_pair` on bytes.
#[unsafe(no_mangle)]
pub extern "C" fn tsivareza_inner_pair(
    kind: u32,
    text: &[u8],
    room: &mut [u32],
    row: u32,
    col: u32,
    out: &mut [u32; 9],
) -> u32
    ensures { Answered text.now room.old out.old (inner kind
        row col (points text.now)) result room.new out.new }
{
    let f = fill(text, room);
    if f != 0 {
        return f;
    }
    let n = text.len() / 4;
    call_texts::inner_pair(kind, &room[..n], row, col, out)
}
