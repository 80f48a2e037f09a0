// Vim's own keyword lists: a token of them, and what it says of a character. Their grammar is
// `specs/Grammar.antt`. Vim's `options.txt`, 'isfname' and 'iskeyword'; document 02, #108.

#![tactic(auto)]

mod tokens;

pub use tokens::EMPTY;

// One token of a list. Kind 0: none; 1: every letter; 2: one code, `lo` and `hi`; 3: the codes `lo`
// to `hi`, both ends in. Where `out`, it excludes them. `lochar` and `hichar`: that end stands in
// the list as a character, and not as a number.
#[derive(Clone, Copy)]
pub struct VimToken {
    pub out: bool,
    pub kind: u32,
    pub lochar: bool,
    pub lo: u32,
    pub hichar: bool,
    pub hi: u32,
}
