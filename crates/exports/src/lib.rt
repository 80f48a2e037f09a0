// The calls for hosts in other languages: numbers, and code points as four bytes each, the lowest
// first (document 01, "What form to use where"). Every call answers 0 and puts its answer into
// `out`, or answers a number and leaves `out` as it was: the refusal numbers of document 01, and
// from 100 on those of the boundary.
//   100  no such operation, mode or kind of bracket
//   101  bytes that make no whole code points
//   102  too little room for the code points
//   103  an answer that no u32 holds
// 101 comes first, then 102, then 100, then document 01's; 103 stands in an answer's place, and of
// UTF-8 that has more bytes than a u32 counts before everything. A refusal with a place (13, 17,
// 21) is answered in 64 bits, the number in the low half and the place in the high half.
// A call on bytes decodes into the lent room; its `_u32` form takes code points as they are. The
// code points stay at the start of the room, also where the call is refused, but for 101 and 102.

#![tactic(auto)]

mod characters;
mod classes;
mod editing;
mod encodings;
mod fold_files;
mod fold_rows;
mod inners;
mod jumping;
mod kept;
mod keyword_lists;
mod moves;
mod moves_by_table;
mod pairs;
mod rows;
mod runs;
mod seeks;
mod signs;
mod tables;
mod tabs;
mod terms;
mod upright;
mod vim;
mod wraps;
