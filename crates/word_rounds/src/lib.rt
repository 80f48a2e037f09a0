// One round of the word motions, on offsets, with the jump out of a closed fold: "Word motions" of
// motions.rs.

#![tactic(auto)]

mod out_of_folds;
pub mod rounds;

use word_kinds::Spot;

// A word motion.
#[derive(Clone, Copy)]
pub enum Motion {
    Fwd,
    Back,
    End,
    EndBack,
}
