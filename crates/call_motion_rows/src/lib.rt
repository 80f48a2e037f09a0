// The motions by numbers, with a table of row starts: each call takes, after the text, its row
// starts and the number of its rows with content, as `tsivareza_row_starts` gives them, and else
// what the call without a table takes. It answers what that call answers; then, in the place of an
// answer, 15 for a table with fewer places than the text has rows, and 16 for one that is not the
// text's. Document 02, #106.

#![tactic(auto)]

mod asks;
mod moves;
mod upright;

pub use moves::{motion_rows, seek_rows, viewport_rows, word_rows};
pub use upright::{screen_kept_rows, vertical_rows};
