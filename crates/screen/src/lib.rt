// The walks of the screen motions `gj` and `gk`, over rows that are broken into segments: from a
// place of an accepted text to the row and column that the motion leads to. From motions.rs,
// "Internals". Segments are walked and never stored.

#![tactic(auto)]

use text::Position;
use vertical::Target;

mod out_of_folds;
mod walks;
pub mod wrapped;

// Where a move leads to, and the offset that is kept then.
#[derive(Clone, Copy)]
pub struct Kept {
    pub target: Target,
    pub offset: Option<u32>,
}

// A place under wrap: its row with the row's start, and how many segments lie ahead of it in the
// row, down or up.
#[derive(Clone, Copy)]
pub struct Spot {
    pub row: usize,
    pub start: usize,
    pub ahead: usize,
}

// How many segments lie ahead of a place in its row, and its character offset in its own.
#[derive(Clone, Copy)]
pub struct Seat {
    pub ahead: usize,
    pub offset: usize,
}

// A place with its row's start.
#[derive(Clone, Copy)]
pub struct Jump {
    pub row: usize,
    pub start: usize,
    pub col: usize,
}

// Where rounds have ended, and the offset that they kept.
#[derive(Clone, Copy)]
pub struct Glided {
    pub place: Position,
    pub offset: usize,
}
