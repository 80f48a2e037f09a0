// One sequence of bytes at a time, by the syntax of RFC 3629, section 4.
ghost use Rattle.std.specs.Prelude.{◌≡◌, ◌+◌, ◌<◌, length, drop};
ghost use Rattle.utf8.specs.Decoding.{low_of, high_of, ended, reading, reading_from};
ghost use Rattle.utf8.specs.Sequences.{Stepped, Begun};

use crate::BadAt;

// The least byte that can follow the lead a.
fn low(a: u8) -> u8
    ensures { result ≡ low_of a }
{
    if a == 0xe0 {
        return 0xa0;
    }
    if a == 0xf0 {
        return 0x90;
    }
    0x80
}

// The greatest one.
fn high(a: u8) -> u8
    ensures { result ≡ high_of a }
{
    if a == 0xed {
        return 0x9f;
    }
    if a == 0xf4 {
        return 0x8f;
    }
    0xbf
}

// Goes on with a sequence that has `left` bytes left, the first of them from `least` to `most`, and
// holds the bits `value` so far.
fn follow(
    bytes: &[u8],
    at: usize,
    left: usize,
    least: u8,
    most: u8,
    value: u32,
) -> Result<(usize, u32), BadAt>
    requires { Begun at (length bytes.now) left least most value }
    ensures { Stepped bytes.now at (ended left value
        (reading left least most value at (drop at bytes.now))) result }
{
    let mut from = least;
    let mut to = most;
    let mut bits = value;
    for i in at..at + left {
        if i >= bytes.len() {
            return Err(BadAt { place: i });
        }
        let b = bytes[i];
        if b < from {
            return Err(BadAt { place: i });
        }
        if b > to {
            return Err(BadAt { place: i });
        }
        bits = bits * 64 + (b - 0x80) as u32;
        from = 0x80;
        to = 0xbf;
    }
    Ok((at + left, bits))
}

// The sequence that begins at an index: the index behind it and its value, or the place of the
// first byte that can't stand there.
pub fn step(bytes: &[u8], at: usize) -> Result<(usize, u32), BadAt>
    requires { at < length bytes.now }
    ensures { Stepped bytes.now (at + 1)
        (reading_from at (drop at bytes.now)) result }
{
    let a = bytes[at];
    if a < 0x80 {
        return Ok((at + 1, a as u32));
    }
    if a < 0xc2 {
        return Err(BadAt { place: at });
    }
    if a < 0xe0 {
        return follow(bytes, at + 1, 1, 0x80, 0xbf, (a - 0xc0) as u32);
    }
    if a < 0xf0 {
        return follow(bytes, at + 1, 2, low(a), high(a), (a - 0xe0) as u32);
    }
    if a <= 0xf4 {
        return follow(bytes, at + 1, 3, low(a), high(a), (a - 0xf0) as u32);
    }
    Err(BadAt { place: at })
}
