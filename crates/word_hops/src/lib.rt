// One word on or back, by the classes alone: where `w`, `b`, `e` and `ge` go in one round. The
// examples are of `if (n) {`, with the classes 0 0 2 1 0 1 2 1 4; docs/WORDS.md shows them all.

#![tactic(auto)]

mod back;
mod on;

pub use back::{prev_end, prev_start};
pub use on::{at_end, last_empty, next_end, next_start};
