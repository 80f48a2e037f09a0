// The word motions by the classes and the folds: `w`, `b`, `e`, `ge` and their capitals, with
// counts. No function here takes the text or a keyword list: from the classes on, a word motion
// knows nothing else. docs/WORDS.md walks through an example.

#![tactic(auto)]

mod fold_jumps;
mod rounds;

pub use rounds::word_by_class;
