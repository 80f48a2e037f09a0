// One character on or back from a position, from row to row, so many times over. There is no caret
// here: a walk takes a text and a position that were accepted. From motions.rs, "Horizontal
// motions".

#![tactic(auto)]

pub mod walks;
