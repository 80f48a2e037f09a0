// The calls on UTF-8 on the numbers of a case, each compared with the stored answer: a byte is a
// number below 256 there. Places lent for bytes hold 165 before a call.

#![tactic(auto)]

ghost use Rattle.std.specs.Prelude.{◌≡◌, ◌∷◌, ◌≤◌, length};
ghost use Rattle.replay_verdicts.specs.Answers.{compared as compared_of};
ghost use Rattle.replay_codings.specs.Codings.{Narrowed, decoded_into, decode_verdict};
ghost use Rattle.replay_codings.specs.Codings.{encoded_into, encode_verdict};

use replay_rows::Head;
use replay_verdicts::{FILLER, Verdict, compared_two};

// Puts numbers below 256 at the start of `bytes`, and answers whether all are.
pub fn narrow(numbers: &[u32], bytes: &mut [u8]) -> bool
    requires { length numbers.now ≤ length bytes.old }
    ensures { Narrowed numbers.now (length bytes.old) result
        bytes.new }
{
    for (i, x) in numbers.iter().enumerate() {
        if *x > 255 {
            return false;
        }
        bytes[i] = *x as u8;
    }
    true
}

// Puts bytes as numbers into as many places.
pub fn widen(bytes: &[u8], numbers: &mut [u32])
    requires { length numbers.old ≡ length bytes.now }
    ensures { numbers.new ≡ bytes.now }
{
    for (i, b) in bytes.iter().enumerate() {
        numbers[i] = *b as u32;
    }
}

// Three numbers and what lent places hold, against the stored answer.
pub fn compared_three(
    first: u32,
    second: u32,
    third: u32,
    places: &[u32],
    stored: &[u32],
) -> Verdict
    ensures { result ≡ compared_of (first ∷ second ∷ third ∷ places.now)
        stored.now }
{
    let n = stored.len();
    if n == 0 {
        return Verdict::Differs;
    }
    if stored[0] != first {
        return Verdict::Differs;
    }
    compared_two(second, third, places, &stored[1..n])
}

// The number, the place, the count and the places lent for code points.
fn decode_into(bytes: &[u8], points: &mut [u32], stored: &[u32]) -> Verdict
    ensures { result ≡ compared_of (decoded_into bytes.now points.old)
        stored.now }
{
    let mut out = [FILLER; 1];
    let told = call_utf8::utf8_decode(bytes, points, &mut out);
    compared_three(
        (told % 4294967296) as u32,
        (told / 4294967296) as u32,
        out[0],
        points,
        stored,
    )
}

// At most 64 bytes into a places, at most 64.
pub fn utf8_decode(k: Head, numbers: &[u32], stored: &[u32]) -> Verdict
    ensures { result ≡ decode_verdict k numbers.now stored.now }
{
    let n = numbers.len();
    let room = k.a as usize;
    if n > 64 {
        return Verdict::Malformed;
    }
    if room > 64 {
        return Verdict::Malformed;
    }
    let mut bytes = [0u8; 64];
    if !narrow(numbers, &mut bytes) {
        return Verdict::Malformed;
    }
    let mut points = [FILLER; 64];
    decode_into(&bytes[..n], &mut points[..room], stored)
}

// The number, the count and the places lent for bytes.
fn encode_into(points: &[u32], bytes: &mut [u8], numbers: &mut [u32], stored: &[u32]) -> Verdict
    requires { length numbers.old ≡ length bytes.old }
    ensures { result ≡ compared_of (encoded_into points.now bytes.old)
        stored.now }
{
    let mut out = [FILLER; 1];
    let told = call_utf8::utf8_encode(points, bytes, &mut out);
    widen(bytes, numbers);
    compared_two(told, out[0], numbers, stored)
}

// Code points into a places for bytes, at most 64.
pub fn utf8_encode(k: Head, points: &[u32], stored: &[u32]) -> Verdict
    ensures { result ≡ encode_verdict k points.now stored.now }
{
    let room = k.a as usize;
    if room > 64 {
        return Verdict::Malformed;
    }
    let mut bytes = [165u8; 64];
    let mut numbers = [0u32; 64];
    encode_into(points, &mut bytes[..room], &mut numbers[..room], stored)
}
