// Calls for hosts on UTF-8: code points from bytes and back. Document 02, #105.

#![tactic(auto)]

ghost use Rattle.std.specs.Prelude.{◌≡◌};
ghost use Rattle.call_bytes.specs.Reply.{Replied};
ghost use Rattle.call_utf8.specs.Utf8.{decodes, decodes_in, encodes};
ghost use Rattle.utf8.specs.Calls.{encoded_in};

use call_bytes::{Told, reply};
use utf8::DecodeError;

// Puts the code points of `bytes` at the start of `points`, and how many there are into `out`.
// Answers 0, or a number in the low half, and for 13 the place of the first byte that can't stand
// there in the high half: 103 more bytes than a u32 counts, before anything is looked at, 13, 14.
pub fn utf8_decode(bytes: &[u8], points: &mut [u32], out: &mut [u32; 1]) -> u64
    ensures replied { Replied (decodes bytes.now points.old)
        out.old result out.new }
    ensures points_after { points.new ≡ decodes_in bytes.now points.old }
{
    if bytes.len() > 4294967295 {
        return 103;
    }
    match utf8::decode(bytes, points) {
        Ok(n) => {
            *out = [n as u32];
            0
        }
        Err(e) => {
            let number = e.number() as u64;
            match e {
                DecodeError::Bad(at) => number + 4294967296 * (at.place as u64),
                DecodeError::NoRoom => number,
            }
        }
    }
}

// Puts the encoding of `points` at the start of `bytes`, and how many bytes it has into `out`; 1, 2
// and then 14.
pub fn utf8_encode(points: &[u32], bytes: &mut [u8], out: &mut [u32; 1]) -> u32
    ensures replied { Replied (encodes points.now bytes.old)
        out.old result out.new }
    ensures bytes_after { bytes.new ≡ encoded_in points.now bytes.old }
{
    match utf8::encode(points, bytes) {
        Ok(n) => reply(Told::Value(n as u32), out),
        Err(e) => reply(Told::Refused(e.number()), out),
    }
}
