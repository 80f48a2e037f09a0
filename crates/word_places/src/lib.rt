// Places of a text by their classes, and the three walks from place to place. A place is a number,
// the same as in the text; the last one is the text's end. Every function takes the slice of
// classes, and neither the text nor a keyword list. The examples are of `if (n) {`, with the
// classes 0 0 2 1 0 1 2 1 4; docs/WORDS.md shows them all.

#![tactic(auto)]

mod places;
mod walks;

pub use places::{class_at, forward, is_end, kind, soft, text_end};
pub use walks::{back, over, run_end};
