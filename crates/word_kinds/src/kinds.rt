// The kind of a character, by the bounds or the flags of a keyword list and the letters' ranges,
// all lent: `is_word` and `char_kind` of motions.rs.
ghost use Rattle.std.specs.Prelude.{◌≡◌};
ghost use Rattle.word_kinds.specs.Lent.{word_by, flagged, Lends, kinds_by, words_by};

use crate::{Alphabet, MARK, SPACE, WORD};

// Whether x is a keyword character by a flag for each code up to 255; above it the
// letters count where the setting says so. Below U+02C2 their ranges are not read.
fn is_flagged(by: &Alphabet<'_>, x: u32) -> bool
    requires { Lends by.now x }
    ensures { result ≡ flagged by.now.bounds.now by.now.setting.letters x }
{
    if x < 256 {
        let at = x as usize;
        return by.bounds[at] != 0;
    }
    if !by.setting.letters {
        return false;
    }
    if x < 0x2c2 {
        return letters::is_letter(x);
    }
    letters::letter_in(by.starts, by.lengths, x)
}

// Whether x is a keyword character. Below U+02C2 the ranges of the letters are not read.
fn is_word(by: &Alphabet<'_>, x: u32) -> bool
    requires { Lends by.now x }
    ensures { result ≡ words_by by.now x }
{
    let bounds = by.bounds;
    if by.setting.flags {
        return is_flagged(by, x);
    }
    if x >= 0x2c2 {
        return keywords::holds(
            bounds,
            by.setting.pairs,
            by.setting.letters,
            by.starts,
            by.lengths,
            x,
        );
    }
    if !by.setting.letters {
        return keywords::in_bounds(bounds, by.setting.pairs, x);
    }
    if letters::is_letter(x) {
        return true;
    }
    keywords::in_bounds(bounds, by.setting.pairs, x)
}

// The kind of a character: `SPACE`, `WORD` or `MARK`.
pub fn char_kind(by: &Alphabet<'_>, x: u32) -> u32
    requires { Lends by.now x }
    ensures { result ≡ kinds_by by.now x }
{
    if chars::is_white(x) {
        return SPACE;
    }
    if by.setting.big {
        return WORD;
    }
    if is_word(by, x) {
        return WORD;
    }
    MARK
}
