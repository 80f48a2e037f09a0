// Folds out of a file: its length, its sums and its layout are checked in that order, by the rules
// of `fold_blocks`, then its folds against the open text. Document 02, #111.

#![tactic(auto)]

mod entries;
mod layout;

ghost use Rattle.fold_reader.specs.Reading.{LoadsTo};

use entries::take_all;
use layout::layout_refusal;

// The answer of the reader: how many folds it wrote, or the number that it refuses with.
#[derive(Clone, Copy)]
pub enum Loaded {
    Folds(usize),
    Refused(u32),
}

// Puts the folds of a file at the start of `folds`, three numbers each. Refused are the text (1 to
// 3), a length that isn't 1 to 5 blocks (18), a sum that doesn't fit (19), any other rule of the
// layout broken (20), folds that the text refuses (5) and then too little room (14); nothing is
// written then.
pub fn read_folds(text: &[u32], file: &[u8], folds: &mut [u32]) -> Loaded
    ensures { LoadsTo text.now file.now folds.old result
        folds.new }
{
    let f = text_check::text_refusal(text);
    if f != 0 {
        return Loaded::Refused(f);
    }
    let g = layout_refusal(file);
    if g != 0 {
        return Loaded::Refused(g);
    }
    let mut list = [0u32; 840];
    let n = take_all(file, &mut list);
    let h = folds::fold_refusal(&list[..n], text::row_count(text));
    if h != 0 {
        return Loaded::Refused(h);
    }
    if n > folds.len() {
        return Loaded::Refused(14);
    }
    take_all(file, folds);
    Loaded::Folds(n / 3)
}
