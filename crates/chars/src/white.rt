// White space: the property White_Space. Document 01, "Character facts".
ghost use Rattle.std.specs.Prelude.{◌≡◌, ◌<◌};
ghost use Rattle.chars.specs.White.{whites, is_white};

// The bounds of the property: a range is its first code point and the first after it.
pub const WHITE: [u32; 20] = [
    0x9, 0xe, 0x20, 0x21, 0x85, 0x86, 0xa0, 0xa1, 0x1680, 0x1681, 0x2000, 0x200b, 0x2028, 0x202a,
    0x202f, 0x2030, 0x205f, 0x2060, 0x3000, 0x3001,
];

// Whether x, below U+1680, is white space: the first four ranges of the list, compared without a
// branch. Most characters of a text stand here, and the list is not built for them.
fn low_white(x: u32) -> bool
    requires { x < 0x1680 }
    ensures { result ≡ is_white x }
{
    ((0x9 <= x) & (x < 0xe))
        | (((0x20 <= x) & (x < 0x21)) | (((0x85 <= x) & (x < 0x86)) | ((0xa0 <= x) & (x < 0xa1))))
}

// Whether x is white space, by the table WHITE that is lent: it answers from U+1680 on.
pub fn white_in(white: &[u32], x: u32) -> bool
    requires { white.now ≡ whites }
    ensures { result ≡ is_white x }
{
    if x < 0x1680 {
        return low_white(x);
    }
    ranges::in_table(white, x)
}

// The same, by the table WHITE that it names.
fn high_white(x: u32) -> bool
    ensures { result ≡ is_white x }
{
    white_in(&WHITE, x)
}

// Whether x is white space.
pub fn is_white(x: u32) -> bool
    ensures { result ≡ is_white x }
{
    if x < 0x1680 {
        return low_white(x);
    }
    high_white(x)
}
