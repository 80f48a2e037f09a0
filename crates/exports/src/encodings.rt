// UTF-8: code points from bytes and back. Document 02, #105.
ghost use Rattle.std.specs.Prelude.{◌≡◌};
ghost use Rattle.call_points.specs.Points.{points as points_of};
ghost use Rattle.call_bytes.specs.Reply.{Replied, Answered, unfit_one, fitting};
ghost use Rattle.call_utf8.specs.Utf8.{decodes, decodes_in, encodes};
ghost use Rattle.utf8.specs.Calls.{encoded_in};

use call_bytes::fill;

// Code points from UTF-8: the number in the low half, and for 13 the place in the high half.
#[unsafe(no_mangle)]
pub extern "C" fn tsivareza_utf8_decode(bytes: &[u8], points: &mut [u32], out: &mut [u32; 1]) -> u64
    ensures replied { Replied (decodes bytes.now points.old)
        out.old result out.new }
    ensures points_after { points.new ≡ decodes_in bytes.now points.old }
{
    call_utf8::utf8_decode(bytes, points, out)
}

// UTF-8 from code points.
#[unsafe(no_mangle)]
pub extern "C" fn tsivareza_utf8_encode_u32(
    points: &[u32],
    bytes: &mut [u8],
    out: &mut [u32; 1],
) -> u32
    ensures replied { Replied (encodes points.now bytes.old)
        out.old result out.new }
    ensures bytes_after { bytes.new ≡ encoded_in points.now bytes.old }
{
    call_utf8::utf8_encode(points, bytes, out)
}

// UTF-8 from code points of four bytes each.
#[unsafe(no_mangle)]
pub extern "C" fn tsivareza_utf8_encode(
    points: &[u8],
    room: &mut [u32],
    bytes: &mut [u8],
    out: &mut [u32; 1],
) -> u32
    ensures answered { Answered points.now room.old out.old (encodes
        (points_of points.now) bytes.old) result room.new
        out.new }
    ensures bytes_after { bytes.new ≡ fitting (unfit_one points.now
        room.old) (encoded_in (points_of points.now) bytes.old)
        bytes.old }
{
    let f = fill(points, room);
    if f != 0 {
        return f;
    }
    let n = points.len() / 4;
    call_utf8::utf8_encode(&room[..n], bytes, out)
}
