// The classes of a text: what each of its places is to the word motions. There is one for each code
// point and one for the text's end, so that a text of n code points has n + 1 of them. Of
// `if (n) {` they are, under the text and its end:
//
//     i  f     (  n  )     {
//     0  0  2  1  0  1  2  1  4
//
// docs/WORDS.md walks through them. The walks over the classes are in `word_places`, and need
// neither the text nor the keyword list.

#![tactic(auto)]

mod call;
mod classes;

pub use call::{places_refusal, word_classes};
pub use classes::write_classes;

// How many classes were written, or the number that the call is refused with.
#[derive(Clone, Copy)]
pub enum Written {
    Made(usize),
    Refused(u32),
}

// A character that the keyword list holds.
pub const WORD: u8 = 0;
// Any other character that is no white space.
pub const MARK: u8 = 1;
// White space.
pub const SPACE: u8 = 2;
// The only place of a row without characters.
pub const EMPTY_ROW: u8 = 3;
// The place behind a row's last character: its separator, or the text's end.
pub const ROW_END: u8 = 4;
