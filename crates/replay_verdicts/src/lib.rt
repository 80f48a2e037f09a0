// An answer held against the stored one, and verdicts counted.

#![tactic(auto)]

mod answers;
mod tallies;

pub use answers::{FILLER, compared, compared_two};

// What a case comes to.
#[derive(Clone, Copy)]
pub enum Verdict {
    Agrees,
    Differs,
    Malformed,
}

// How many cases there are and agree, the first row that doesn't (from 1 on, 0 for none), and
// whether that one is malformed.
#[derive(Clone, Copy)]
pub struct Tally {
    pub cases: usize,
    pub agree: usize,
    pub first: usize,
    pub malformed: bool,
}
