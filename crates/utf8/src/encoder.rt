// Bytes from code points: everything is checked and counted first, and then written.
ghost use Rattle.std.specs.Prelude.{◌≡◌, ◌≤◌, length};
ghost use Rattle.std.proofs.lemmas.List.Edits.{sets};
ghost use Rattle.utf8.specs.Encoding.{encoding, utf8};
ghost use Rattle.utf8.specs.Calls.{EncodesTo};
ghost use Rattle.utf8.specs.Walks.{Put};
ghost use Rattle.utf8.specs.Rooms.{PointRoom, TextRoom};

use crate::EncodeError;

// How many bytes the encoding of x has.
fn size(x: u32) -> usize
    ensures { result ≡ length (encoding x) }
{
    if x < 0x80 {
        return 1;
    }
    if x < 0x800 {
        return 2;
    }
    if x < 0x10000 {
        return 3;
    }
    4
}

// How many bytes the encoding of a text has.
fn size_all(points: &[u32]) -> usize
    requires { length points.now ≤ 1048576 }
    ensures { result ≡ length (utf8 points.now) }
{
    let mut n: usize = 0;
    for x in points {
        n += size(*x);
    }
    n
}

// Writes the encoding of x at an index, and answers the index behind it.
fn put(bytes: &mut [u8], at: usize, x: u32) -> usize
    requires { PointRoom x at bytes.old }
    ensures { Put bytes.old at (encoding x) result bytes.new }
{
    if x < 0x80 {
        bytes[at] = x as u8;
        return at + 1;
    }
    if x < 0x800 {
        bytes[at] = (0xc0 + x / 64) as u8;
        bytes[at + 1] = (0x80 + x % 64) as u8;
        return at + 2;
    }
    if x < 0x10000 {
        bytes[at] = (0xe0 + x / 4096) as u8;
        bytes[at + 1] = (0x80 + x / 64 % 64) as u8;
        bytes[at + 2] = (0x80 + x % 64) as u8;
        return at + 3;
    }
    bytes[at] = (0xf0 + x / 262144) as u8;
    bytes[at + 1] = (0x80 + x / 4096 % 64) as u8;
    bytes[at + 2] = (0x80 + x / 64 % 64) as u8;
    bytes[at + 3] = (0x80 + x % 64) as u8;
    at + 4
}

// Writes the encoding of a text at the start of `bytes`.
fn write(points: &[u32], bytes: &mut [u8])
    requires { TextRoom points.now bytes.old }
    ensures { bytes.new ≡ sets bytes.old 0
        (utf8 points.now) }
{
    let mut at: usize = 0;
    for x in points {
        at = put(bytes, at, *x);
    }
}

// Puts the encoding of code points at the start of `bytes`. Refused are more than 1,048,576 code
// points (1), a value that is no scalar value (2) and then too little room (14); nothing is written
// then.
pub fn encode(points: &[u32], bytes: &mut [u8]) -> Result<usize, EncodeError>
    ensures { EncodesTo points.now bytes.old result bytes.new }
{
    if points.len() > 1048576 {
        return Err(EncodeError::TooLong);
    }
    if !chars::all_scalar(points) {
        return Err(EncodeError::NotScalar);
    }
    let n = size_all(points);
    if n > bytes.len() {
        return Err(EncodeError::NoRoom);
    }
    write(points, bytes);
    Ok(n)
}
