// The walks of the vertical and viewport motions: from a place of an accepted text to the row and
// column that the motion leads to. From motions.rs, "Vertical motions", "Viewport-relative motions"
// and "Internals".

#![tactic(auto)]

pub mod moves;
pub mod viewport;

// Where a motion leads to, and the visual column that it aims for: the sticky column from then on.
#[derive(Clone, Copy)]
pub struct Target {
    pub row: usize,
    pub col: usize,
    pub want: u32,
}

// The edge of a viewport that a motion leads to, or its middle.
#[derive(Clone, Copy)]
pub enum Edge {
    Top,
    Middle,
    Bottom,
}
