// Where the rows of a text start, in a table that a host keeps beside the text: how it is filled,
// and how it is checked against the text. Place r of the table is the offset at which row r starts,
// for every row, the last empty one too; the number of rows with content is kept beside it. Places
// behind the rows are the host's. From document 02, #106.

#![tactic(auto)]

pub mod check;
pub mod fill;
