// Vim's own keyword lists read in one pass: the table of a list's tokens, or the place where it
// goes wrong; and the test of one character by a table or a list. Document 02, #108.

#![tactic(auto)]

mod machine;
mod vim_spec;

pub use vim_grammar::{EMPTY, VimToken};
pub use vim_spec::is_vim_char;

// How far the part of a list that is being read has come. The first bool says whether the part
// excludes, the second whether its first end stands as a character.
#[derive(Clone, Copy)]
pub enum State {
    Start,
    Part,
    Caret,
    Number(bool, u32),
    Sign(bool, u32),
    Dash(bool, bool, u32),
    Second(bool, bool, u32, u32),
    Done(bool, bool, u32, u32),
    Dead,
}

// The table of a list's tokens: the first `len` places, and after them EMPTY.
#[derive(Clone, Copy)]
pub struct VimSpec {
    pub tokens: [VimToken; 128],
    pub len: usize,
}

// What a list is read into: refusal 0 and its table, or the refusal's number and the empty table.
// For 17 the place is the length of the longest beginning that some list of the grammar has, and
// else 0.
#[derive(Drop)]
pub struct VimRead {
    pub refusal: u32,
    pub place: usize,
    pub spec: VimSpec,
}

// Whether a character is a keyword character by a table, or the refusal's number.
#[derive(Clone, Copy)]
pub enum VimMatched {
    Is(bool),
    Refused(u32),
}

// Whether a character is a keyword character by a list, 17 with its place, or the refusal's number.
#[derive(Clone, Copy)]
pub enum VimTested {
    Is(bool),
    Bad(usize),
    Refused(u32),
}
