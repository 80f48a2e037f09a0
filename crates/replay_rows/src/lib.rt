// A record of answers, one case to a row: rows of numbers read, and the parts of a case. Which call
// a case is about is for the reader to say.

#![tactic(auto)]

mod cases;
mod rows;

pub use cases::head_of;
pub use rows::{read_row, row_end};

// The first numbers of a case after its group: the operation in it, and what that takes.
#[derive(Clone, Copy)]
pub struct Head {
    pub op: u32,
    pub a: u32,
    pub b: u32,
    pub c: u32,
    pub d: u32,
    pub e: u32,
    pub f: u32,
    pub g: u32,
    pub h: u32,
}

// A number that is being read: its value so far, how often it stands there, whether it has digits,
// whether it came after a `*`, and whether all of that was well formed.
#[derive(Clone, Copy)]
pub struct Reader {
    pub value: u32,
    pub times: u32,
    pub begun: bool,
    pub many: bool,
    pub ok: bool,
}
