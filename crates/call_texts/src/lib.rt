// The calls for hosts on a text, by numbers: each puts its answer into `out` and answers 0, or
// answers the number of a refusal and leaves `out` as it was. A caret is four numbers, or six where
// a call takes the offset within a segment.

#![tactic(auto)]

use motions::Move;

mod asks;
mod carets;
mod inners;
mod moves;
mod pairs;
mod rows;
mod seeks;
mod viewports;

pub use asks::move_as;
pub use carets::{caret_six, place_six};
pub use inners::inner_pair;
pub use moves::{caret_of, motion, place, way_of};
pub use pairs::matching_bracket_pos;
pub use rows::content_row_count;
pub use seeks::{seek, seek_of, tell};
pub use viewports::{edge_of, viewport};
