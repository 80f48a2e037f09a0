// One word on: `next_word_start`, `next_word_end` and `at_word_end` of motions.rs.
ghost use Rattle.std.specs.Prelude.{◌≡◌};
ghost use Rattle.word_kinds.specs.Places.{space, end};
ghost use Rattle.word_loops.specs.Walks.{skip};
ghost use Rattle.word_edges.specs.Words.{or_end, from_end, run_from};
ghost use Rattle.word_edges.specs.Words.{next_word_start, next_word_end};
ghost use Rattle.word_edges.specs.Words.{at_word_end, run_here};
ghost use Rattle.word_kinds.specs.Spots.{place_of, Reaches};
ghost use Rattle.word_kinds.specs.Lent.{kinds_by};
ghost use Rattle.word_edges.specs.Ready.{Ready};

use word_ends::Halt;
use word_kinds::{Alphabet, END, SPACE, Spot, near};
use word_loops::walks;

// On over white space, to the end of the buffer where there is nothing else.
fn over_space(t: &[u32], by: &Alphabet<'_>, p: Spot) -> Option<Spot>
    requires { Ready t.now by.now p }
    ensures { Reaches t.now result
        (or_end t.now
        (skip t.now (kinds_by by.now) space space
        (place_of t.now p))) }
{
    match walks::skip(t, by, SPACE, SPACE, p) {
        Halt::Onto(q) => Some(q),
        Halt::Stuck(q) => Some(near::end_of_buffer(t, by.setting.content)),
    }
}

// From the first place behind a row's end: big words go over empty rows too.
fn from_end(t: &[u32], by: &Alphabet<'_>, p: Spot) -> Option<Spot>
    requires { Ready t.now by.now p }
    ensures { Reaches t.now result
        (from_end t.now (kinds_by by.now) by.now.setting.big
        (place_of t.now p)) }
{
    if !by.setting.big {
        return over_space(t, by, p);
    }
    match walks::skip(t, by, END, END, p) {
        Halt::Onto(q) => over_space(t, by, q),
        Halt::Stuck(q) => None,
    }
}

// The start of the next word.
pub fn next_word_start(t: &[u32], by: &Alphabet<'_>, p: Spot) -> Option<Spot>
    requires { Ready t.now by.now p }
    ensures { Reaches t.now result
        (next_word_start t.now (kinds_by by.now) by.now.setting.big
        (place_of t.now p)) }
{
    let k = near::kind_at(t, by, p);
    if k == END {
        match near::step_forward(t, p) {
            Some(q) => {
                return from_end(t, by, q);
            }
            None => {
                return None;
            }
        }
    }
    match walks::leave(t, by, k, p) {
        Halt::Onto(q) => over_space(t, by, q),
        Halt::Stuck(q) => Some(near::end_of_buffer(t, by.setting.content)),
    }
}

// The last place of the word that has the place.
fn run_end(t: &[u32], by: &Alphabet<'_>, p: Spot) -> Option<Spot>
    requires { Ready t.now by.now p }
    ensures { Reaches t.now result
        (run_here t.now (kinds_by by.now) (place_of t.now p)) }
{
    let k = near::kind_at(t, by, p);
    match walks::run(t, by, k, p) {
        Halt::Onto(q) => Some(q),
        Halt::Stuck(q) => Some(q),
    }
}

// On over white space and row ends, and then to the end of the word there.
fn run_from(t: &[u32], by: &Alphabet<'_>, p: Spot) -> Option<Spot>
    requires { Ready t.now by.now p }
    ensures { Reaches t.now result
        (run_from t.now (kinds_by by.now)
        (skip t.now (kinds_by by.now) space end
        (place_of t.now p))) }
{
    match walks::skip(t, by, SPACE, END, p) {
        Halt::Onto(q) => run_end(t, by, q),
        Halt::Stuck(q) => Some(q),
    }
}

// The end of the next word.
pub fn next_word_end(t: &[u32], by: &Alphabet<'_>, p: Spot) -> Option<Spot>
    requires { Ready t.now by.now p }
    ensures { Reaches t.now result
        (next_word_end t.now (kinds_by by.now)
        (place_of t.now p)) }
{
    match near::step_forward(t, p) {
        Some(q) => run_from(t, by, q),
        None => None,
    }
}

// Whether the place is the last of a word.
pub fn at_word_end(t: &[u32], by: &Alphabet<'_>, p: Spot) -> bool
    requires { Ready t.now by.now p }
    ensures { result ≡ at_word_end t.now (kinds_by by.now)
        (place_of t.now p) }
{
    let k = near::cls(t, by, p);
    if k == SPACE {
        return false;
    }
    let next = Spot {
        row: p.row,
        at: p.at + 1,
    };
    near::cls(t, by, next) != k
}
