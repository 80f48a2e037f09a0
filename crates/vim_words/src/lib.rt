// The word motions by Vim's own keyword lists: `w`, `b`, `e`, `ge` and their capitals, on carets.
// The walks are those of `words`; a list's table becomes a flag for each code up to 255, and
// whether the letters above count. Document 02, #108.

#![tactic(auto)]

use motions::Caret;

mod by_vim;
mod flags;
mod once;

pub use by_vim::word_by_vim;
pub use once::{prepare_vim, vim_motion};

// Where a word motion leads to, the place where its list goes wrong (17), or the refusal's number.
#[derive(Clone, Copy)]
pub enum VimMoved {
    To(Caret),
    Bad(usize),
    Refused(u32),
}
