// The calls for hosts on the word motions by Vim's own lists (document 02, #108), by numbers. A
// call puts its answer into `out` and answers 0, or answers the number of a refusal, with the place
// of 17 in the high half, and leaves `out` as it was.

#![tactic(auto)]

mod terms;

pub use terms::word_vim;
