// Searches among places: the first and the last that passes a test, and find on a row.
// From motions.rs, "Find / match".

#![tactic(auto)]

mod find;

pub use find::find_on_row;
