// The calls for hosts on a text with folds, by numbers: each puts its answer into `out` and answers
// 0, or answers the number of a refusal and leaves `out` as it was.

#![tactic(auto)]

mod kept;
mod terms;
mod upright;

pub use kept::{kept_of, screen_kept};
pub use terms::{word, word_of};
pub use upright::{mode_of, upright_of, vertical};
