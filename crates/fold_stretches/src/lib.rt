// Stretches of rows without closed folds, by which the rounds of a count ask the folds only now and
// then.

#![tactic(auto)]

mod stretches;

pub use stretches::{around, near};

// Rows from lo up to hi, hi not among them.
#[derive(Clone, Copy)]
pub struct Stretch {
    pub lo: usize,
    pub hi: usize,
}
