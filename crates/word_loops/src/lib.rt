// The loops of the word motions, from place to place of a text: motions.rs, "Internals". The calls
// take what a caller has checked.

#![tactic(auto)]

pub mod walks;

use word_kinds::Spot;
