// Places of a text, their kinds, and the steps from place to place, on offsets: motions.rs,
// "Internals". The calls take what a caller has checked.

#![tactic(auto)]

mod kinds;
pub mod near;

// The kind of white space.
pub const SPACE: u32 = 0;

// The kind of a word's characters.
pub const WORD: u32 = 1;

// The kind of punctuation.
pub const MARK: u32 = 2;

// The kind at a row's end, where there is no character.
pub const END: u32 = 3;

// A place of the text: its row, and its offset, which is a separator's where the place is the row's
// end.
#[derive(Clone, Copy)]
pub struct Spot {
    pub row: usize,
    pub at: usize,
}

// What a walk knows of the text and of the kinds: rows and rows with content, whether the bounds
// are a flag for each code up to 255, and else how many pairs of bounds the keyword list has,
// whether letters are in it (by flags, those above 255), and whether words are big.
#[derive(Clone, Copy)]
pub struct Setting {
    pub rows: usize,
    pub content: usize,
    pub flags: bool,
    pub pairs: usize,
    pub letters: bool,
    pub big: bool,
}

// What tells the kind of a character, lent: the bounds or flags of a keyword list, the ranges of the
// letters, and the setting. A walk takes it whole.
#[derive(Clone, Copy)]
pub struct Alphabet<'a> {
    pub bounds: &'a [u32; 256],
    pub starts: &'a [u32],
    pub lengths: &'a [u16],
    pub setting: Setting,
}
