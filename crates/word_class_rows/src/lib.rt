// Rows by the classes: every row has one place that ends it, so rows are counted by ends. A place
// is kept with its row, and each walk begins there, so that none goes over the whole slice.

#![tactic(auto)]

mod rows;

pub use rows::{content_of, ends, moved, row_end, row_start};
