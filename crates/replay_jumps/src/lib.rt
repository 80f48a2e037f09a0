// Jumps over one text on the numbers of a case, compared with the stored answer: the number, the
// caret's six places, and the places for answers, which hold the filler before the call.

#![tactic(auto)]

ghost use Rattle.std.specs.Prelude.{◌≡◌, ◌∷◌, ◌++◌, ◌≤◌, length};
ghost use Rattle.replay_verdicts.specs.Answers.{compared as compared_of};
ghost use Rattle.replay_jumps.specs.Jumps.{jumped_into, room_verdict, jump_verdict};

use replay_edits::put_all;
use replay_rows::Head;
use replay_verdicts::{FILLER, Verdict, compared};

// A number, and what two lent slices hold one behind the other, against the stored answer.
fn compared_both(number: u32, caret: &[u32; 6], answers: &[u32], stored: &[u32]) -> Verdict
    requires { length answers.now ≤ 64 }
    ensures { result ≡ compared_of (number ∷ (caret.now ++ answers.now))
        stored.now }
{
    let mut all = [0u32; 70];
    let a = put_all(&mut all, 0, caret);
    let b = put_all(&mut all, a, answers);
    compared(number, &all[..b], stored)
}

// Into at most 64 places: the caret is a to f, and h rows have content.
fn jumped_into(
    k: Head,
    text: &[u32],
    folds: &[u32],
    starts: &[u32],
    pairs: &[u32],
    words: &[u32],
    answers: &mut [u32],
    stored: &[u32],
) -> Verdict
    requires { length answers.old ≤ 64 }
    ensures { result ≡ compared_of (jumped_into k text.now folds.now
        starts.now pairs.now words.now answers.old)
        stored.now }
{
    let mut out = [FILLER; 6];
    let n = call_jumps::jumps(
        text, starts, k.h, folds, words, k.a, k.b, k.c, k.d, k.e, k.f, pairs, answers, &mut out,
    );
    compared_both(n, &out, answers, stored)
}

// Into g places.
fn with_room(
    k: Head,
    text: &[u32],
    folds: &[u32],
    starts: &[u32],
    pairs: &[u32],
    words: &[u32],
    stored: &[u32],
) -> Verdict
    ensures { result ≡ room_verdict k text.now folds.now
        starts.now pairs.now words.now stored.now }
{
    let room = k.g as usize;
    if room > 64 {
        return Verdict::Malformed;
    }
    let mut answers = [FILLER; 64];
    jumped_into(
        k,
        text,
        folds,
        starts,
        pairs,
        words,
        &mut answers[..room],
        stored,
    )
}

// The list of a case is how many places the table has, how many numbers the jumps have, those of
// the table, those of the jumps, and the keyword list.
pub fn jumped(k: Head, text: &[u32], folds: &[u32], list: &[u32], stored: &[u32]) -> Verdict
    ensures { result ≡ jump_verdict k text.now folds.now
        list.now stored.now }
{
    let end = list.len();
    if end < 2 {
        return Verdict::Malformed;
    }
    let pairs = 2 + list[0] as usize;
    let words = pairs + list[1] as usize;
    if words > end {
        return Verdict::Malformed;
    }
    with_room(
        k,
        text,
        folds,
        &list[2..pairs],
        &list[pairs..words],
        &list[words..end],
        stored,
    )
}
