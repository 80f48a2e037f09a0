// One segment of a row that is broken, by characters or by words: the step of every walk over
// segments. From `wrap.rs`; the walks are in `row_wrap` and `screen`.

#![tactic(auto)]

mod segment;

pub use segment::{first_segment, put_segment};
