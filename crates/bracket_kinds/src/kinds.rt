// The eight brackets by their code points.
// From motions.rs: the `match` of `matching_bracket_pos`, and the `matches!` of `match_bracket`.
ghost use Rattle.std.specs.Prelude.{◌≡◌};
ghost use Rattle.bracket_kinds.specs.Kinds.{open_of, close_of, side_of, key_bracket};

use crate::{Kind, Side};

// The open bracket of a kind.
pub fn open_code(k: Kind) -> u32
    ensures { result ≡ open_of k }
{
    match k {
        Kind::Round => 40,
        Kind::Square => 91,
        Kind::Curly => 123,
        Kind::Angle => 60,
    }
}

// The close bracket of a kind.
pub fn close_code(k: Kind) -> u32
    ensures { result ≡ close_of k }
{
    match k {
        Kind::Round => 41,
        Kind::Square => 93,
        Kind::Curly => 125,
        Kind::Angle => 62,
    }
}

// The kind and the hand of a code point, or that it is no bracket.
pub fn side_of(x: u32) -> Side
    ensures { result ≡ side_of x }
{
    match x {
        40 => Side::Open(Kind::Round),
        41 => Side::Close(Kind::Round),
        91 => Side::Open(Kind::Square),
        93 => Side::Close(Kind::Square),
        123 => Side::Open(Kind::Curly),
        125 => Side::Close(Kind::Curly),
        60 => Side::Open(Kind::Angle),
        62 => Side::Close(Kind::Angle),
        _ => Side::Neither,
    }
}

// Whether the % key starts on a code point: a round, square or curly bracket, and no angle sign.
pub fn is_key_bracket(x: u32) -> bool
    ensures { result ≡ key_bracket x }
{
    (x == 40) | ((x == 41) | ((x == 91) | ((x == 93) | ((x == 123) | (x == 125)))))
}
