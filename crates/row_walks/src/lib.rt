// Walks from row to row of a text, on offsets: paragraphs, by a signed row, and sections. There is
// no caret here. From motions.rs.

#![tactic(auto)]

pub mod paragraphs;
pub mod sections;
pub mod toward;

// Where a round of a paragraph motion ends: on the empty row that it was to find, or on the row at
// the edge.
#[derive(Clone, Copy)]
pub enum Round {
    Found(text::Line),
    RanOff(text::Line),
}
