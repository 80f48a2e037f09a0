// Code points from bytes: a first pass checks and counts, a second one writes. Both take a stretch
// at a time: one of ASCII without looking at sequences, any other sequence by sequence.
ghost use Rattle.std.specs.Prelude.{◌≡◌, not, ◌<◌};
ghost use Rattle.lists.specs.Lists.{any};
ghost use Rattle.utf8.specs.Encoding.{is_above};
ghost use Rattle.utf8.specs.Decoding.{decoding};
ghost use Rattle.utf8.specs.Calls.{checked, decoded_in, DecodesTo};
ghost use Rattle.utf8.specs.Walks.{Onward, Walked, Holds, Wrote};
ghost use Rattle.utf8.specs.Rooms.{CountsUntil, HoldsUntil, PlainUntil};

use crate::sequences::step;
use crate::{BadAt, DecodeError, Spot};

// How many bytes a stretch has.
const STRETCH: usize = 64;

// Whether no byte is above ASCII. The loop leaves by its end alone, so that the compiler reads many
// bytes at a time.
fn plain(bytes: &[u8]) -> bool
    ensures { result ≡ not (any is_above bytes.now) }
{
    let mut above = false;
    for b in bytes {
        above |= *b > 127;
    }
    !above
}

// Where the stretch from an index on ends.
fn stretch(at: usize, len: usize) -> usize
    requires { at < len }
    ensures { Onward at len result }
{
    if len - at < STRETCH {
        len
    } else {
        at + STRETCH
    }
}

// Counts on, sequence by sequence, to an index at or past `until`.
fn count_on(bytes: &[u8], at: usize, until: usize, count: usize) -> Result<Spot, BadAt>
    requires { CountsUntil bytes.now at count until }
    ensures { Walked bytes.now until result }
{
    let mut i = at;
    let mut n = count;
    // A `while`: it goes on by a sequence of bytes, as long as its first byte says.
    while i < until {
        let (next, _) = step(bytes, i)?;
        n += 1;
        i = next;
    }
    Ok(Spot { at: i, count: n })
}

// How many code points bytes make, or the place of the first byte that can't stand there: their
// length where they are cut off.
pub fn check(bytes: &[u8]) -> Result<usize, BadAt>
    ensures { result ≡ checked bytes.now }
{
    let mut i: usize = 0;
    let mut n: usize = 0;
    // A `while`: it goes on by a stretch, which may end within a sequence and then reaches past it.
    while i < bytes.len() {
        let until = stretch(i, bytes.len());
        if plain(&bytes[i..until]) {
            n += until - i;
            i = until;
        } else {
            let s = count_on(bytes, i, until, n)?;
            i = s.at;
            n = s.count;
        }
    }
    Ok(n)
}

// Writes on, byte by byte, what is ASCII up to `until`.
fn widen_on(bytes: &[u8], points: &mut [u32], at: usize, until: usize, count: usize) -> Spot
    requires { PlainUntil bytes.now at count points.old until }
    ensures { Wrote bytes.now points.old count until result
        points.new }
{
    let mut i = at;
    let mut n = count;
    // A `while`: the index where it ends is part of the answer.
    while i < until {
        points[n] = bytes[i] as u32;
        n += 1;
        i += 1;
    }
    Spot { at: i, count: n }
}

// Writes on, sequence by sequence, to an index at or past `until`. No sequence is bad where the
// first pass went through.
fn write_on(bytes: &[u8], points: &mut [u32], at: usize, until: usize, count: usize) -> Spot
    requires { HoldsUntil bytes.now at count points.old until }
    ensures { Wrote bytes.now points.old count until result
        points.new }
{
    let mut i = at;
    let mut n = count;
    // A `while`: it goes on by a sequence of bytes, as long as its first byte says.
    while i < until {
        let (next, x) = step(bytes, i).unwrap();
        points[n] = x;
        n += 1;
        i = next;
    }
    Spot { at: i, count: n }
}

// Writes the code points of bytes that were checked.
fn write(bytes: &[u8], points: &mut [u32])
    requires { Holds bytes.now 0 0 points.old }
    ensures { points.new ≡ decoded_in (decoding bytes.now)
        points.old }
{
    let mut i: usize = 0;
    let mut n: usize = 0;
    // A `while`: it goes on by a stretch, which may end within a sequence and then reaches past it.
    while i < bytes.len() {
        let until = stretch(i, bytes.len());
        if plain(&bytes[i..until]) {
            let s = widen_on(bytes, points, i, until, n);
            i = s.at;
            n = s.count;
        } else {
            let s = write_on(bytes, points, i, until, n);
            i = s.at;
            n = s.count;
        }
    }
}

// Puts the code points of bytes at the start of `points`. Refused are bytes that are no UTF-8, with
// the place of the first byte that can't stand there (13), and then too little room (14); nothing
// is written then.
pub fn decode(bytes: &[u8], points: &mut [u32]) -> Result<usize, DecodeError>
    ensures { DecodesTo bytes.now points.old result points.new }
{
    let n = check(bytes)?;
    if n > points.len() {
        return Err(DecodeError::NoRoom);
    }
    write(bytes, points);
    Ok(n)
}
