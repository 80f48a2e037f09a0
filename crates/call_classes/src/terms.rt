// Word motions by the classes.
ghost use Rattle.std.specs.Prelude.{◌≡◌};
ghost use Rattle.call_bytes.specs.Reply.{Replied};
ghost use Rattle.call_texts.specs.Carets.{caret_of};
ghost use Rattle.call_folds.specs.Terms.{is_big};
ghost use Rattle.call_classes.specs.ByTerm.{term_of, by_term, left_by, words_by_class, slices_left};

use call_texts::{caret_of, place};
use motions::{Caret, Moved};
use word_rounds::Motion;

// The word motion that a number stands for, as in `tsivareza_word`: 0 `w`, 1 `b`, 2 and 3 `e` with
// stop off and on, 4 `ge`, which takes no folds.
pub fn term_of(op: u32) -> Option<(Motion, bool)>
    ensures { result ≡ term_of op }
{
    match op {
        0 => Some((Motion::Fwd, false)),
        1 => Some((Motion::Back, false)),
        2 => Some((Motion::End, false)),
        3 => Some((Motion::End, true)),
        4 => Some((Motion::EndBack, false)),
        _ => None,
    }
}

// The answer; 100 where the number stands for none, and then the slice stays.
fn by_term(
    a: Option<(Motion, bool)>,
    big: bool,
    count: u32,
    k: Caret,
    text: &[u32],
    folds: &[u32],
    list: &[u32],
    classes: &mut [u8],
) -> Moved
    ensures value { result ≡ by_term a big count k text.now folds.now
        list.now classes.old }
    ensures classes_after { classes.new ≡ left_by a k text.now folds.now
        list.now classes.old }
{
    match a {
        Some((m, stop)) => {
            caret_by_class::word_by_class(k, text, folds, list, m, big, stop, count, classes)
        }
        None => Moved::Refused(100),
    }
}

// A word motion by the classes over a text of code points, with folds and a keyword list; big words
// where `big` is not 0.
pub fn word_by_class(
    op: u32,
    text: &[u32],
    folds: &[u32],
    list: &[u32],
    row: u32,
    col: u32,
    held: u32,
    sticky: u32,
    big: u32,
    count: u32,
    classes: &mut [u8],
    out: &mut [u32; 4],
) -> u32
    ensures replied { Replied (words_by_class op (is_big big) count (caret_of row col held sticky)
        text.now folds.now list.now classes.old)
        out.old result out.new }
    ensures classes_after { classes.new ≡ slices_left op (caret_of row col held sticky)
        text.now folds.now list.now classes.old }
{
    let k = caret_of(row, col, held, sticky);
    let a = term_of(op);
    place(
        by_term(a, big != 0, count, k, text, folds, list, classes),
        out,
    )
}
