// The calls for hosts on a character, a row or a list, by numbers: each puts its answer into `out`
// and answers 0, or answers the number of a refusal and leaves `out` as it was.

#![tactic(auto)]

mod characters;
mod flags;
mod keyword_lists;
mod tabs;
mod wraps;

pub use characters::character;
pub use flags::{plain_of, setting_of};
pub use keyword_lists::keywords;
pub use tabs::columns;
pub use wraps::{offsets, segment_for_col, wrap_segments};
