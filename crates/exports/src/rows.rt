// Rows of a text.
ghost use Rattle.call_points.specs.Points.{points};
ghost use Rattle.call_bytes.specs.Reply.{Replied, Answered};
ghost use Rattle.call_texts.specs.Rows.{row_count};

use call_bytes::fill;

// `content_row_count` on code points.
#[unsafe(no_mangle)]
pub extern "C" fn tsivareza_content_row_count_u32(text: &[u32], out: &mut [u32; 1]) -> u32
    ensures { Replied (row_count text.now) out.old result
        out.new }
{
    call_texts::content_row_count(text, out)
}

// `content_row_count` on bytes.
#[unsafe(no_mangle)]
pub extern "C" fn tsivareza_content_row_count(
    text: &[u8],
    room: &mut [u32],
    out: &mut [u32; 1],
) -> u32
    ensures { Answered text.now room.old out.old (row_count
        (points text.now)) result room.new out.new }
{
    let f = fill(text, room);
    if f != 0 {
        return f;
    }
    let n = text.len() / 4;
    call_texts::content_row_count(&room[..n], out)
}
