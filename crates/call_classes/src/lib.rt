// The calls for hosts on the second engine of the word motions (document 02, #113), by numbers: the
// classes of a text, and a word motion by them. Each puts its answer into `out` and answers 0, or
// answers the number of a refusal and leaves `out` and the slice of classes as they were.

#![tactic(auto)]

mod terms;
mod written;

pub use terms::{term_of, word_by_class};
use word_rounds::Motion;
pub use written::word_classes;
