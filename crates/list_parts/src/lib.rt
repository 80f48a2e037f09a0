// What a keyword list is read by: its parts, the numbers among them, and the refusals of a list and
// of a character. The given hjkl-buffer/motion.rs; document 01, "Keyword lists".

#![tactic(auto)]

mod numbers;
mod parts;
mod refusals;

pub use numbers::read_number;
pub use parts::{find, trimmed};
pub use refusals::{refused_char, refused_list};
