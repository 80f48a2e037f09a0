// Soft wrapping of one row: where a row wider than the text area is broken into segments. From
// `wrap.rs`. Where a column or a cell stands in them is in `row_cells`.

#![tactic(auto)]

mod breaks;

pub use breaks::wrap_segments;

// How a row is broken: not at all, at the last cell that fits, or after white space before it.
#[derive(Clone, Copy, PartialEq, Eq, Debug)]
pub enum Wrap {
    None,
    Char,
    Word,
}

// The number of segments written, or the number that the call is refused for.
#[derive(Clone, Copy)]
pub enum Segments {
    Count(u32),
    Refused(u32),
}
