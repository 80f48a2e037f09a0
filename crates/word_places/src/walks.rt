// The three walks: on over a kind, to the end of a run, and back over a kind.
ghost use Rattle.std.specs.Prelude.{◌≡◌};
ghost use Rattle.word_places.specs.Walks.{over, run_end, back};

use crate::places::{class_at, forward, kind, soft, text_end};
use word_classes::EMPTY_ROW;
use word_ends::Halt;

// On over the places of the kinds a and b, also into the next rows: over spaces from 2 to 3.
pub fn over(c: &[u8], big: bool, a: u8, b: u8, i: usize) -> Halt<usize>
    ensures { result ≡ over c.now big a b i }
{
    let mut cur = i;
    // A `loop`: a step on passes a row's end too, so that steps are unequal.
    loop {
        let k = kind(c, big, cur);
        if !((k == a) | (k == b)) {
            return Halt::Onto(cur);
        }
        match forward(c, cur) {
            Some(j) => {
                cur = j;
            }
            None => {
                return Halt::Stuck(cur);
            }
        }
    }
}

// The last place of the run that has the place, which is in its row: from 0 to 1, the `f`; for big
// words from 3 to 5.
pub fn run_end(c: &[u8], big: bool, i: usize) -> usize
    ensures { result ≡ run_end c.now big i }
{
    let end = text_end(c);
    let k = kind(c, big, i);
    let mut cur = i;
    // A `while`: where it stops is the answer, also where it began behind the end.
    while cur < end {
        if kind(c, big, cur + 1) != k {
            return cur;
        }
        cur += 1;
    }
    cur
}

// Back over the places of a kind, where a row's end counts as a space: over spaces from 2 to 1. An
// empty row ends it, and the text's first place.
pub fn back(c: &[u8], big: bool, k: u8, i: usize) -> Halt<usize>
    ensures { result ≡ back c.now big k i }
{
    let mut cur = i;
    // A `loop`: both its ends answer with the place, and the first place is looked at too.
    loop {
        if !((soft(c, big, cur) == k) & (class_at(c, cur) != EMPTY_ROW)) {
            return Halt::Onto(cur);
        }
        if cur == 0 {
            return Halt::Stuck(cur);
        }
        cur -= 1;
    }
}
