// What a call on several byte strings is lent: their code points share one room.
ghost use Rattle.std.specs.Prelude.{[]};
ghost use Rattle.call_bytes.specs.Joined.{FilledThree};

use crate::lend::unfit;

// Puts the code points of three byte strings at the start of `room`, one after the other, or
// answers why that can't be done.
pub fn fill_three(first: &[u8], second: &[u8], third: &[u8], room: &mut [u32]) -> u32
    ensures { FilledThree first.now second.now third.now
        room.old result room.new }
{
    let whole = (first.len() % 4 == 0) & ((second.len() % 4 == 0) & (third.len() % 4 == 0));
    let points = first.len() / 4 + (second.len() / 4 + third.len() / 4);
    let f = unfit(whole, points, room.len());
    if f != 0 {
        return f;
    }
    call_points::decode_three(first, second, third, room);
    0
}

// The same for two: the third is empty.
pub fn fill_two(first: &[u8], second: &[u8], room: &mut [u32]) -> u32
    ensures { FilledThree first.now second.now [] room.old result
        room.new }
{
    let none = &first[..0];
    fill_three(first, second, none, room)
}
