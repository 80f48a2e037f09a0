// One word back: `prev_word_start` and `prev_word_end` of motions.rs.
ghost use Rattle.word_kinds.specs.Places.{space};
ghost use Rattle.word_loops.specs.Walks.{back};
ghost use Rattle.word_edges.specs.Words.{front_from, halted, end_from};
ghost use Rattle.word_edges.specs.Words.{prev_word_start, prev_word_end};
ghost use Rattle.word_edges.specs.Words.{front_here};
ghost use Rattle.word_kinds.specs.Spots.{place_of, Reaches};
ghost use Rattle.word_kinds.specs.Lent.{kinds_by};
ghost use Rattle.word_edges.specs.Ready.{Ready};

use word_ends::Halt;
use word_kinds::{Alphabet, SPACE, Spot, near};
use word_loops::walks;

// The first place of the word that has the place.
fn front_of(t: &[u32], by: &Alphabet<'_>, p: Spot) -> Option<Spot>
    requires { Ready t.now by.now p }
    ensures { Reaches t.now result
        (front_here t.now (kinds_by by.now)
        (place_of t.now p)) }
{
    let k = near::cls(t, by, p);
    match walks::back(t, by, k, p) {
        Halt::Onto(q) => match near::inc(t, q) {
            Some(n) => Some(n),
            None => Some(q),
        },
        Halt::Stuck(q) => Some(q),
    }
}

// The first place of the last word at or before the place, or an empty row.
fn front_from(t: &[u32], by: &Alphabet<'_>, p: Spot) -> Option<Spot>
    requires { Ready t.now by.now p }
    ensures { Reaches t.now result
        (front_from t.now (kinds_by by.now)
        (back t.now (kinds_by by.now) space
        (place_of t.now p))) }
{
    match walks::back(t, by, SPACE, p) {
        Halt::Onto(q) => {
            if near::on_empty_row(t, q) {
                return Some(q);
            }
            front_of(t, by, q)
        }
        Halt::Stuck(q) => Some(q),
    }
}

// The start of the previous word.
pub fn prev_word_start(t: &[u32], by: &Alphabet<'_>, p: Spot) -> Option<Spot>
    requires { Ready t.now by.now p }
    ensures { Reaches t.now result
        (prev_word_start t.now (kinds_by by.now)
        (place_of t.now p)) }
{
    match near::dec(t, p) {
        Some(q) => front_from(t, by, q),
        None => None,
    }
}

// Back over white space, to a word, an empty row or the first place of the text.
fn back_over_space(t: &[u32], by: &Alphabet<'_>, p: Spot) -> Option<Spot>
    requires { Ready t.now by.now p }
    ensures { Reaches t.now result
        (halted
        (back t.now (kinds_by by.now) space
        (place_of t.now p))) }
{
    match walks::back(t, by, SPACE, p) {
        Halt::Onto(q) => Some(q),
        Halt::Stuck(q) => Some(q),
    }
}

// The same, after the rest of a word of the class.
fn end_from(t: &[u32], by: &Alphabet<'_>, class: u32, p: Spot) -> Option<Spot>
    requires { Ready t.now by.now p }
    ensures { Reaches t.now result
        (end_from t.now (kinds_by by.now)
        (back t.now (kinds_by by.now) class
        (place_of t.now p))) }
{
    match walks::back(t, by, class, p) {
        Halt::Onto(q) => back_over_space(t, by, q),
        Halt::Stuck(q) => Some(q),
    }
}

// The end of the previous word.
pub fn prev_word_end(t: &[u32], by: &Alphabet<'_>, p: Spot) -> Option<Spot>
    requires { Ready t.now by.now p }
    ensures { Reaches t.now result
        (prev_word_end t.now (kinds_by by.now)
        (place_of t.now p)) }
{
    let k = near::cls(t, by, p);
    match near::dec(t, p) {
        Some(q) => {
            if k == SPACE {
                return back_over_space(t, by, q);
            }
            end_from(t, by, k, q)
        }
        None => None,
    }
}
