// UTF-8 by RFC 3629, over lent slices: `check` and `decode`, code points from bytes, and `encode`,
// bytes from code points. Document 02, #105.

#![tactic(auto)]

ghost use Rattle.std.specs.Prelude.{◌≡◌};
ghost use Rattle.utf8.specs.declared.DecodeError.TheVariants.{Bad};
ghost use Rattle.utf8.specs.Numbers.{decode_number, encode_number};

mod decoder;
mod encoder;
mod sequences;

pub use decoder::{check, decode};
pub use encoder::encode;

// The place of the first byte that can't stand there: the length of the bytes where they are cut
// off.
#[derive(Clone, Copy, Debug, PartialEq, Eq)]
pub struct BadAt {
    pub place: usize,
}

// Why bytes aren't decoded.
#[derive(Clone, Copy, Debug, PartialEq, Eq)]
pub enum DecodeError {
    // They are no UTF-8.
    Bad(BadAt),
    // There is too little room.
    NoRoom,
}

// Why code points aren't encoded.
#[derive(Clone, Copy, Debug, PartialEq, Eq)]
pub enum EncodeError {
    // There are more than 1,048,576.
    TooLong,
    // One of them is no scalar value.
    NotScalar,
    // There is too little room.
    NoRoom,
}

// How far a pass has come: an index, and how many code points stand before it.
#[derive(Clone, Copy)]
pub struct Spot {
    pub at: usize,
    pub count: usize,
}

impl From<BadAt> for DecodeError {
    ghost from_gives = { λ at e. e ≡ Bad at };

    fn from(at: BadAt) -> DecodeError {
        DecodeError::Bad(at)
    }
}

impl DecodeError {
    // Its number in the calls for hosts.
    pub fn number(self) -> u32
        ensures { result ≡ decode_number self }
    {
        match self {
            DecodeError::Bad(_) => 13,
            DecodeError::NoRoom => 14,
        }
    }
}

impl EncodeError {
    // Its number in the calls for hosts.
    pub fn number(self) -> u32
        ensures { result ≡ encode_number self }
    {
        match self {
            EncodeError::TooLong => 1,
            EncodeError::NotScalar => 2,
            EncodeError::NoRoom => 14,
        }
    }
}
