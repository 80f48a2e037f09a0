// Facts about one code point: scalar value, white space, width. Document 01, "Character facts". A
// table that a function names is built anew at each call of it, so a loop takes the `_in` form and
// lends the table (`white_in(&chars::WHITE, x)`), and low code points have functions of their own
// that name no table.

#![tactic(auto)]

mod cell_widths;
mod scalar;
mod white;
mod width_tables;

pub use cell_widths::{width, width_in};
pub use scalar::{all_scalar, is_scalar};
pub use white::{WHITE, is_white, white_in};
pub use width_tables::{DOUBLE_WIDTH, ZERO_WIDTH};

// What tells the width of a character, lent: the table of what has no cell, and that of what has two.
// A walk takes it whole.
#[derive(Clone, Copy)]
pub struct Measure<'a> {
    pub zeros: &'a [u32],
    pub doubles: &'a [u32],
}
