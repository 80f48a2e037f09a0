// One word on or back, on offsets: `next_word_start` and its like of motions.rs, "Internals". A
// place is a row and an offset; the calls take what a caller has checked.

#![tactic(auto)]

mod ahead;
mod behind;

pub use ahead::{at_word_end, next_word_end, next_word_start};
pub use behind::{prev_word_end, prev_word_start};
