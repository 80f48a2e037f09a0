// What a call is lent: bytes, room for their code points, and places for its answer.
ghost use Rattle.std.specs.Prelude.{◌≡◌};
ghost use Rattle.call_bytes.specs.Reply.{Filled, Replied, told};
ghost use Rattle.call_bytes.specs.Reply.{unfit as unfit_of};

use crate::Told;

// Puts a number into `out`, and answers 0 or the refusal's number.
pub fn reply(m: Told, out: &mut [u32; 1]) -> u32
    ensures { Replied (told m) out.old result out.new }
{
    match m {
        Told::Value(n) => {
            *out = [n];
            0
        }
        Told::Refused(f) => f,
    }
}

// Why what was lent is unfit: 101 no whole code points, 102 too little room; 0 where it is fit.
pub fn unfit(whole: bool, points: usize, room: usize) -> u32
    ensures { result ≡ unfit_of whole points room }
{
    if !whole {
        return 101;
    }
    if points > room {
        return 102;
    }
    0
}

// Puts the code points of `bytes` at the start of `room`, or answers why that can't be done.
pub fn fill(bytes: &[u8], room: &mut [u32]) -> u32
    ensures { Filled bytes.now room.old result room.new }
{
    let f = unfit(bytes.len() % 4 == 0, bytes.len() / 4, room.len());
    if f != 0 {
        return f;
    }
    call_points::decode(bytes, room);
    0
}
