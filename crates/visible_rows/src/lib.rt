// Walks from visible row to visible row, past the rows that folds hide. From motions.rs, "Vertical
// motions".

#![tactic(auto)]

pub mod rows;

// The next visible row, and how many rows come after it that no fold hides.
#[derive(Clone, Copy)]
pub struct Hop {
    pub next: Option<usize>,
    pub free: usize,
}
