// One round of each word motion: of `move_word_fwd`, `move_word_back`, `move_word_end` and
// `move_word_end_back` of motions.rs.
ghost use Rattle.std.specs.Prelude.{◌≡◌, false};
ghost use Rattle.word_kinds.specs.Spots.{place_of};
ghost use Rattle.word_kinds.specs.Lent.{kinds_by};
ghost use Rattle.word_rounds.specs.declared.Motion.TheVariants as variant;
ghost use Rattle.word_rounds.specs.Rounds.{round_of};
ghost use Rattle.word_rounds.specs.Turns.{ComesTo, turned, Set};

use crate::{Motion, out_of_folds};
use word_ends::Turn;
use word_kinds::{Alphabet, Spot};

// The round's answer: the word found, or the place from which none was found.
fn turned(from: Spot, found: Option<Spot>) -> Turn<Spot>
    ensures { result ≡ turned from found }
{
    match found {
        Some(q) => Turn::On(q),
        None => Turn::Off(from),
    }
}

// A round of `move_word_fwd`.
fn fwd_round(t: &[u32], folds: &[u32], by: &Alphabet<'_>, p: Spot) -> Turn<Spot>
    requires { Set t.now folds.now by.now p }
    ensures { ComesTo t.now result
        (round_of t.now folds.now (kinds_by by.now) by.now.setting.big
        variant.Fwd false (place_of t.now p)) }
{
    let from = out_of_folds::fold_jump_fwd(t, folds, by.setting.rows, by.setting.content, p);
    let next = word_edges::next_word_start(t, by, from);
    turned(from, next)
}

// A round of `move_word_back`.
fn back_round(t: &[u32], folds: &[u32], by: &Alphabet<'_>, p: Spot) -> Turn<Spot>
    requires { Set t.now folds.now by.now p }
    ensures { ComesTo t.now result
        (round_of t.now folds.now (kinds_by by.now) by.now.setting.big
        variant.Back false (place_of t.now p)) }
{
    let from = out_of_folds::fold_jump_back(t, folds, by.setting.rows, by.setting.content, p);
    let prev = word_edges::prev_word_start(t, by, from);
    turned(from, prev)
}

// A round of `move_word_end`; `stop` holds it at the end of a word.
fn end_round(t: &[u32], folds: &[u32], by: &Alphabet<'_>, stop: bool, p: Spot) -> Turn<Spot>
    requires { Set t.now folds.now by.now p }
    ensures { ComesTo t.now result
        (round_of t.now folds.now (kinds_by by.now) by.now.setting.big
        variant.End stop (place_of t.now p)) }
{
    let from = out_of_folds::fold_jump_fwd(t, folds, by.setting.rows, by.setting.content, p);
    if stop {
        if word_edges::at_word_end(t, by, from) {
            return Turn::On(from);
        }
        let other = word_edges::next_word_end(t, by, from);
        return turned(from, other);
    }
    let end = word_edges::next_word_end(t, by, from);
    turned(from, end)
}

// A round of `move_word_end_back`, which takes no folds.
fn end_back_round(t: &[u32], folds: &[u32], by: &Alphabet<'_>, p: Spot) -> Turn<Spot>
    requires { Set t.now folds.now by.now p }
    ensures { ComesTo t.now result
        (round_of t.now folds.now (kinds_by by.now) by.now.setting.big
        variant.EndBack false (place_of t.now p)) }
{
    let end = word_edges::prev_word_end(t, by, p);
    turned(p, end)
}

// A round of a motion.
pub fn round(
    t: &[u32],
    folds: &[u32],
    by: &Alphabet<'_>,
    m: Motion,
    stop: bool,
    p: Spot,
) -> Turn<Spot>
    requires { Set t.now folds.now by.now p }
    ensures { ComesTo t.now result
        (round_of t.now folds.now (kinds_by by.now) by.now.setting.big m
        stop (place_of t.now p)) }
{
    match m {
        Motion::Fwd => fwd_round(t, folds, by, p),
        Motion::Back => back_round(t, folds, by, p),
        Motion::End => end_round(t, folds, by, stop, p),
        Motion::EndBack => end_back_round(t, folds, by, p),
    }
}
