// The word motions as a whole, on offsets: "Word motions" of motions.rs. A place is a row and an
// offset; the calls take what a caller has checked, and know no caret. A motion is prepared, and
// then walked: what is prepared serves any number of walks over the text.

#![tactic(auto)]

use fold_stretches::Stretch;
use word_kinds::{Setting, Spot};

mod entry;
mod once;
mod rounds;

pub use entry::{walk, walk_made, word_motion};
pub use once::{needs_letters, prepare};
pub use rounds::rounds_from;

// What the walks of a text and a keyword list go by: the bounds of the list's table, the setting,
// and whether the text has a code point for which the ranges of the letters are read.
#[derive(Drop)]
pub struct Prepared {
    pub bounds: [u32; 256],
    pub setting: Setting,
    pub high: bool,
}

// Where rounds have come to, and a stretch of rows without closed folds that is known then.
#[derive(Clone, Copy)]
pub struct Walked {
    pub spot: Spot,
    pub stretch: Stretch,
}
