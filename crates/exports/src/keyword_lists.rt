// Keyword lists.
ghost use Rattle.call_points.specs.Points.{points};
ghost use Rattle.call_bytes.specs.Reply.{Replied, Answered};
ghost use Rattle.call_rows.specs.Lists.{keywords};

use call_bytes::fill;

// A keyword list of code points and a character.
#[unsafe(no_mangle)]
pub extern "C" fn tsivareza_keywords_u32(op: u32, list: &[u32], x: u32, out: &mut [u32; 1]) -> u32
    ensures { Replied (keywords op x list.now) out.old result
        out.new }
{
    call_rows::keywords(op, list, x, out)
}

// A keyword list of bytes and a character.
#[unsafe(no_mangle)]
pub extern "C" fn tsivareza_keywords(
    op: u32,
    list: &[u8],
    room: &mut [u32],
    x: u32,
    out: &mut [u32; 1],
) -> u32
    ensures { Answered list.now room.old out.old (keywords
        op x (points list.now)) result room.new out.new }
{
    let f = fill(list, room);
    if f != 0 {
        return f;
    }
    let n = list.len() / 4;
    call_rows::keywords(op, &room[..n], x, out)
}
