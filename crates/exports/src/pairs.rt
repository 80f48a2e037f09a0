// Brackets and their partners.
ghost use Rattle.call_points.specs.Points.{points};
ghost use Rattle.call_bytes.specs.Reply.{Replied, Answered};
ghost use Rattle.call_texts.specs.Partners.{partner};

use call_bytes::fill;

// `matching_bracket_pos` on code points.
#[unsafe(no_mangle)]
pub extern "C" fn tsivareza_matching_bracket_pos_u32(
    text: &[u32],
    row: u32,
    col: u32,
    out: &mut [u32; 3],
) -> u32
    ensures { Replied (partner row col text.now) out.old result
        out.new }
{
    call_texts::matching_bracket_pos(text, row, col, out)
}

// `matching_bracket_pos` on bytes.
#[unsafe(no_mangle)]
pub extern "C" fn tsivareza_matching_bracket_pos(
    text: &[u8],
    room: &mut [u32],
    row: u32,
    col: u32,
    out: &mut [u32; 3],
) -> u32
    ensures { Answered text.now room.old out.old (partner
        row col (points text.now)) result room.new out.new }
{
    let f = fill(text, room);
    if f != 0 {
        return f;
    }
    let n = text.len() / 4;
    call_texts::matching_bracket_pos(&room[..n], row, col, out)
}
