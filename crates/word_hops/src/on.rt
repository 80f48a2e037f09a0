// One word on: `w` and `e`.
ghost use Rattle.std.specs.Prelude.{◌≡◌, length, ◌<◌};
ghost use Rattle.word_hops.specs.Hops.{last_empty, content_end, over_space, from_end};
ghost use Rattle.word_hops.specs.Hops.{next_start, next_end, at_end};
ghost use Rattle.word_hops.specs.Hops.{end_from as end_from_of};
ghost use Rattle.word_places.specs.Walks.{over};

use word_classes::{EMPTY_ROW, ROW_END, SPACE};
use word_ends::Halt;

// Whether the last row is empty and not the only one: not here, but of a text that ends with a
// separator.
pub fn last_empty(c: &[u8]) -> bool
    ensures { result ≡ last_empty c.now }
{
    let end = word_places::text_end(c);
    if end == 0 {
        return false;
    }
    word_places::class_at(c, end) == EMPTY_ROW
}

// Where `w` ends if no word follows: behind the last character of the last row with content, 8.
fn content_end(c: &[u8]) -> usize
    ensures { result ≡ content_end c.now }
{
    let end = word_places::text_end(c);
    if last_empty(c) {
        return end - 1;
    }
    end
}

// On over spaces, to the content's end where there is nothing else: from 2 to 3.
fn over_space(c: &[u8], big: bool, i: usize) -> Option<usize>
    ensures { result ≡ over_space c.now big i }
{
    match word_places::over(c, big, SPACE, SPACE, i) {
        Halt::Onto(j) => Some(j),
        Halt::Stuck(j) => Some(content_end(c)),
    }
}

// On from the first place behind a row's end: big words go over empty rows too, and stay where
// there is nothing else. Of the rows `a`, an empty one and `b`, with the classes 0 4 3 0 4, from 2:
// for small words 2, for big ones 3.
fn from_end(c: &[u8], big: bool, i: usize) -> Option<usize>
    ensures { result ≡ from_end c.now big i }
{
    if !big {
        return over_space(c, big, i);
    }
    match word_places::over(c, big, ROW_END, ROW_END, i) {
        Halt::Onto(j) => over_space(c, big, j),
        Halt::Stuck(j) => None,
    }
}

// `w`: the start of the next word. From 0, the `i`: to the end of its run, 1, one on, 2, and over
// spaces, 3, the `(`. From 7 there is no step on, so to the content's end, 8. From 8 nowhere.
pub fn next_start(c: &[u8], big: bool, i: usize) -> Option<usize>
    ensures { result ≡ next_start c.now big i }
{
    if word_places::is_end(c, i) {
        match word_places::forward(c, i) {
            Some(j) => {
                return from_end(c, big, j);
            }
            None => {
                return None;
            }
        }
    }
    match word_places::forward(c, word_places::run_end(c, big, i)) {
        Some(j) => over_space(c, big, j),
        None => Some(content_end(c)),
    }
}

// On over spaces and row ends, and then to the end of the run there: from 2 to 3.
fn end_from(c: &[u8], big: bool, i: usize) -> Option<usize>
    ensures { result ≡ end_from_of c.now big (over c.now big 2 4 i) }
{
    match word_places::over(c, big, SPACE, ROW_END, i) {
        Halt::Onto(j) => Some(word_places::run_end(c, big, j)),
        Halt::Stuck(j) => Some(j),
    }
}

// `e`: the end of the next word. From 0 one on, 1, which is no space, and to the end of its run, 1,
// the `f`. From 1 to 3: one on, 2, over spaces, 3, whose run ends there. From 7 nowhere.
pub fn next_end(c: &[u8], big: bool, i: usize) -> Option<usize>
    ensures { result ≡ next_end c.now big i }
{
    match word_places::forward(c, i) {
        Some(j) => end_from(c, big, j),
        None => None,
    }
}

// Whether a place is the last of a word, so that `e` with `stop` stays there: 1 is, and 0 is not.
pub fn at_end(c: &[u8], big: bool, i: usize) -> bool
    requires { i < length c.now }
    ensures { result ≡ at_end c.now big i }
{
    let k = word_places::soft(c, big, i);
    if k == SPACE {
        return false;
    }
    word_places::soft(c, big, i + 1) != k
}
