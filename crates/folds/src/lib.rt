// Folds over the rows of a text: their check, the rows that they hide, and those still to be seen.
// From document 01, "Text, rows, carets" and refusal 5.

#![tactic(auto)]

mod folds;

pub use folds::{closed_fold_at, fold_refusal, is_row_hidden, next_visible_row, prev_visible_row};
