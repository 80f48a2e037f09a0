// The word motions of the second engine on carets: a call writes the classes of its text into a
// lent slice, and then goes by them and the folds alone. It answers what the first engine answers.

#![tactic(auto)]

mod by_class;

pub use by_class::word_by_class;
