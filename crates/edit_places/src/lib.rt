// Lent buffers whose first places hold something, a text or folds: a part of them written over, and
// a part of a text replaced where it stands. What lies behind the longer of the old and the new
// content stays as it was.

#![tactic(auto)]

pub mod gaps;
pub mod put;
