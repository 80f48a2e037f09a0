// Code points as bytes: four bytes each, the lowest first. Document 01, "What form to use where".

#![tactic(auto)]

ghost use Rattle.std.specs.Prelude.{◌≡◌, ◌+◌, ◌/◌, ◌≤◌, length};
ghost use Rattle.call_points.specs.Points.{Decoded, Two, Three};

// Puts the code points of `bytes` at the start of `room`, and answers how many there are.
pub fn decode(bytes: &[u8], room: &mut [u32]) -> usize
    requires { length bytes.now / 4 ≤ length room.old }
    ensures { Decoded bytes.now room.old result room.new }
{
    let n = bytes.len() / 4;
    for i in 0..n {
        let at = 4 * i;
        room[i] = u32::from_le_bytes([bytes[at], bytes[at + 1], bytes[at + 2], bytes[at + 3]]);
    }
    n
}

// Puts the code points of `first`, and then those of `second`, at the start of `room`.
pub fn decode_two(first: &[u8], second: &[u8], room: &mut [u32])
    requires { length first.now / 4 + length second.now / 4 ≤ length room.old }
    ensures { Two first.now second.now room.old
        room.new }
{
    let n = decode(first, room);
    decode(second, &mut room[n..]);
}

// The same for three.
pub fn decode_three(first: &[u8], second: &[u8], third: &[u8], room: &mut [u32])
    requires { length first.now / 4 + (length second.now / 4 + length third.now / 4) ≤
        length room.old }
    ensures { Three first.now second.now third.now
        room.old room.new }
{
    let n = decode(first, room);
    decode_two(second, third, &mut room[n..]);
}
