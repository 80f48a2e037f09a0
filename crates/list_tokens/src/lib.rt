// The tokens of a keyword list: what token a part is, and what a token holds. The given
// hjkl-buffer/motion.rs; document 01, "Keyword lists". Names are the Rust's.

#![tactic(auto)]

mod tokens;

pub use tokens::{EMPTY, read_part};

// One token of a list. Kind 0: none; 1: every letter; 2: the codes lo to hi, both ends in (a code
// or a literal character of the Rust is from itself to itself).
#[derive(Clone, Copy)]
pub struct Token {
    pub kind: u32,
    pub lo: u32,
    pub hi: u32,
}
