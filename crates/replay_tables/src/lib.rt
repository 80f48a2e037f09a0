// Row starts on the numbers of a case, compared with the stored answer: the fill, edits that keep
// them, and motions with them.

#![tactic(auto)]

mod editing;
mod filling;
mod moving;
mod tables;

pub use tables::tabled;
