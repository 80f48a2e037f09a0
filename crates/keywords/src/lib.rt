// Keyword lists: the token table, and the test of one character by it or by the list. The given
// hjkl-buffer/motion.rs; document 01, "Keyword lists". Names are the Rust's.

#![tactic(auto)]

mod flat;
mod keyword_spec;

pub use flat::{bounds_of, holds, in_bounds, letters_of};
pub use keyword_spec::is_keyword_char;
pub use list_tokens::{EMPTY, Token};

// The table of a list's tokens: the first `len` places, and after them EMPTY.
#[derive(Clone, Copy)]
pub struct KeywordSpec {
    pub tokens: [Token; 128],
    pub len: usize,
}

// What a list is parsed into: refusal 0 and its table, or the refusal's number and the empty table.
#[derive(Drop)]
pub struct Parsed {
    pub refusal: u32,
    pub spec: KeywordSpec,
}

// Whether a character is a keyword character, or the refusal's number.
#[derive(Clone, Copy)]
pub enum Matched {
    Is(bool),
    Refused(u32),
}
