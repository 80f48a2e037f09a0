// Letters: the property Alphabetic, as `char::is_alphabetic`. Document 01, "Character facts". A
// const that a function names is built anew at each call of it, so a loop takes `letter_in` and
// lends both, the starts of the ranges and their lengths.

#![tactic(auto)]

ghost use Rattle.std.specs.Prelude.{◌≡◌, true};
ghost use Rattle.letters.specs.Letters.{is_letter, is_sign, Latin, LetterRanges};

mod letter_table;

pub use letter_table::{LETTER_LENGTHS, LETTER_STARTS};

// Whether x, from U+00AA up to U+00BF, is a letter: three of these signs are.
fn sign_letter(x: u32) -> bool
    requires { is_sign x ≡ true }
    ensures { result ≡ is_letter x }
{
    (x == 0xaa) | ((x == 0xb5) | (x == 0xba))
}

// Whether x, any other up to U+02C1, is a letter: A to Z, a to z, and from U+00C0 on all but two
// signs. Compared without a branch: plain and accented letters stand beside each other.
fn latin_letter(x: u32) -> bool
    requires { Latin x }
    ensures { result ≡ is_letter x }
{
    (((65 <= x) & (x < 91)) | ((97 <= x) & (x < 123))) | ((0xc0 <= x) & ((x != 0xd7) & (x != 0xf7)))
}

// Whether x is a letter, by LETTER_STARTS and LETTER_LENGTHS that are lent.
pub fn letter_in(starts: &[u32], lengths: &[u16], x: u32) -> bool
    requires { LetterRanges starts.now lengths.now }
    ensures { result ≡ is_letter x }
{
    if (0xaa <= x) & (x < 0xc0) {
        return sign_letter(x);
    }
    if x < 0x2c2 {
        return latin_letter(x);
    }
    ranges::in_ranges(starts, lengths, x)
}

// The same for one that is not low: names the two consts.
fn high_letter(x: u32) -> bool
    ensures { result ≡ is_letter x }
{
    letter_in(&LETTER_STARTS, &LETTER_LENGTHS, x)
}

// Whether x is a letter.
pub fn is_letter(x: u32) -> bool
    ensures { result ≡ is_letter x }
{
    if (0xaa <= x) & (x < 0xc0) {
        return sign_letter(x);
    }
    if x < 0x2c2 {
        return latin_letter(x);
    }
    high_letter(x)
}
