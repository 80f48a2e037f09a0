// What stands at a place, and the next place.
ghost use Rattle.std.specs.Prelude.{◌≡◌, ltb, cond, Some, None};
ghost use Rattle.word_places.specs.Places.{class_at, is_end, kind, soft, text_end, forward};

use word_classes::{EMPTY_ROW, MARK, ROW_END, SPACE, WORD};

// The class of a place: at 0 a word, at 2 a space, at 8 a row end. Behind the slice there are row
// ends alone.
pub fn class_at(c: &[u8], i: usize) -> u8
    ensures { result ≡ class_at c.now i }
{
    if i < c.len() {
        return c[i];
    }
    ROW_END
}

// Whether a row ends at a place: at 8, and not at 7.
pub fn is_end(c: &[u8], i: usize) -> bool
    ensures { result ≡ is_end c.now i }
{
    class_at(c, i) >= EMPTY_ROW
}

// The kind by which words are told apart. It is the class, but an empty row counts as a row end,
// and for big words a mark counts as a word: `(` at 3 is a mark for `w`, and a word for `W`.
pub fn kind(c: &[u8], big: bool, i: usize) -> u8
    ensures { result ≡ kind c.now big i }
{
    let x = class_at(c, i);
    if x == EMPTY_ROW {
        return ROW_END;
    }
    if big & (x == MARK) {
        return WORD;
    }
    x
}

// The same for walks back, in which a row's end counts as a space: at 8 a space.
pub fn soft(c: &[u8], big: bool, i: usize) -> u8
    ensures { result ≡ soft c.now big i }
{
    let k = kind(c, big, i);
    if k == ROW_END {
        return SPACE;
    }
    k
}

// The text's end, which is the last place: 8.
pub fn text_end(c: &[u8]) -> usize
    ensures { result ≡ text_end c.now }
{
    if c.len() == 0 {
        return 0;
    }
    c.len() - 1
}

// A place, where it lies before the text's end.
fn before(end: usize, i: usize) -> Option<usize>
    ensures { result ≡ cond (ltb i end) (Some i) None }
{
    if i < end {
        return Some(i);
    }
    None
}

// One place on: from 0 to 1. From a row's last character it goes over the row's end, to the first
// place of the next row. The text's end is never stepped on, so from 7 there is no step.
pub fn forward(c: &[u8], i: usize) -> Option<usize>
    ensures { result ≡ forward c.now i }
{
    let end = text_end(c);
    if i >= end {
        return None;
    }
    if !is_end(c, i) & is_end(c, i + 1) {
        return before(end, i + 2);
    }
    before(end, i + 1)
}
