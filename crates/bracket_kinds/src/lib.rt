// The eight brackets: their kinds and hands, and the first in a row that the % key starts on.
// From motions.rs, "Find / match", and demand 3 of the request.

#![tactic(auto)]

pub mod find;
pub mod kinds;

// The four kinds of bracket.
#[derive(Clone, Copy)]
pub enum Kind {
    Round,
    Square,
    Curly,
    Angle,
}

// What a code point is: the open or the close bracket of a kind, or no bracket.
#[derive(Clone, Copy)]
pub enum Side {
    Open(Kind),
    Close(Kind),
    Neither,
}
