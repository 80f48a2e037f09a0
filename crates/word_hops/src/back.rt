// One word back: `b` and `ge`.
ghost use Rattle.std.specs.Prelude.{◌≡◌, length, ◌<◌, ◌≤◌};
ghost use Rattle.word_hops.specs.Hops.{run_start, start_from, prev_start};
ghost use Rattle.word_hops.specs.Hops.{landed, back_from, prev_end};
ghost use Rattle.word_places.specs.Walks.{back};

use word_classes::{EMPTY_ROW, SPACE};
use word_ends::Halt;

// The first place of the run that has the place: from 1 to 0.
fn run_start(c: &[u8], big: bool, i: usize) -> usize
    requires { i < length c.now }
    ensures { result ≡ run_start c.now big i }
{
    let k = word_places::soft(c, big, i);
    match word_places::back(c, big, k, i) {
        Halt::Onto(j) => j + 1,
        Halt::Stuck(j) => j,
    }
}

// Back over spaces, and to the front of the run there: from 2 to 0. An empty row is a word.
fn start_from(c: &[u8], big: bool, i: usize) -> Option<usize>
    requires { i < length c.now }
    ensures { result ≡ start_from c.now big (back c.now big 2 i) }
{
    match word_places::back(c, big, SPACE, i) {
        Halt::Onto(j) => {
            if word_places::class_at(c, j) == EMPTY_ROW {
                return Some(j);
            }
            Some(run_start(c, big, j))
        }
        Halt::Stuck(j) => Some(j),
    }
}

// `b`: the start of the word before. From 3, the `(`: one back, 2, back over spaces, 1, and to the
// front of the run, 0, the `i`. From 0 nowhere.
pub fn prev_start(c: &[u8], big: bool, i: usize) -> Option<usize>
    requires { i ≤ length c.now }
    ensures { result ≡ prev_start c.now big i }
{
    if i == 0 {
        return None;
    }
    start_from(c, big, i - 1)
}

// Back over spaces, to a word, an empty row or the first place: from 2 to 1.
fn back_over_space(c: &[u8], big: bool, i: usize) -> Option<usize>
    ensures { result ≡ landed (back c.now big 2 i) }
{
    match word_places::back(c, big, SPACE, i) {
        Halt::Onto(j) => Some(j),
        Halt::Stuck(j) => Some(j),
    }
}

// The same, after the rest of a run: for the kind of a mark from 1 to 1, since there is nothing to
// go over, and for that of a word from 1 to 0.
fn back_from(c: &[u8], big: bool, k: u8, i: usize) -> Option<usize>
    ensures { result ≡ back_from c.now big (back c.now big k i) }
{
    match word_places::back(c, big, k, i) {
        Halt::Onto(j) => back_over_space(c, big, j),
        Halt::Stuck(j) => Some(j),
    }
}

// `ge`: the end of the word before. From 4, the `n`: one back, 3, a mark, so there is nothing left
// of the run of `n`, nor a space: 3, the `(`. From 3: one back, 2, and back over spaces, 1, the
// `f`. From 1: one back, 0, and over the rest of the run to the first place, 0.
pub fn prev_end(c: &[u8], big: bool, i: usize) -> Option<usize>
    ensures { result ≡ prev_end c.now big i }
{
    if i == 0 {
        return None;
    }
    let k = word_places::soft(c, big, i);
    if k == SPACE {
        return back_over_space(c, big, i - 1);
    }
    back_from(c, big, k, i - 1)
}
