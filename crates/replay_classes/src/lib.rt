// The second engine of the word motions on the numbers of a case, compared with the stored answer:
// the number, the places for the answer, and the slice of classes, a class to a number. Its places
// hold 165 before a call.

#![tactic(auto)]

ghost use Rattle.std.specs.Prelude.{◌≡◌, ◌∷◌, ◌++◌};
ghost use Rattle.lists.specs.Lists.{is_same};
ghost use Rattle.replay_verdicts.specs.Answers.{compared as compared_of};
ghost use Rattle.replay_classes.specs.Classes.{classed_into, classes_into, answered};
ghost use Rattle.replay_classes.specs.Classes.{class_verdict};

use replay_rows::Head;
use replay_verdicts::{FILLER, Verdict, compared};

// Whether the bytes are these numbers.
fn same_bytes(a: &[u8], b: &[u32]) -> bool
    ensures { result ≡ is_same a.now b.now }
{
    if a.len() != b.len() {
        return false;
    }
    for (i, x) in a.iter().enumerate() {
        if *x as u32 != b[i] {
            return false;
        }
    }
    true
}

// Bytes against the end of the stored answer.
fn compared_bytes(bytes: &[u8], stored: &[u32]) -> Verdict
    ensures { result ≡ compared_of bytes.now stored.now }
{
    if same_bytes(bytes, stored) {
        return Verdict::Agrees;
    }
    Verdict::Differs
}

// A number, what lent places hold and then bytes, against the stored answer.
fn compared_all(number: u32, places: &[u32], bytes: &[u8], stored: &[u32]) -> Verdict
    ensures { result ≡ compared_of (number ∷ (places.now ++ bytes.now))
        stored.now }
{
    let end = stored.len();
    let n = places.len() + 1;
    if end < n {
        return Verdict::Differs;
    }
    match compared(number, places, &stored[..n]) {
        Verdict::Agrees => compared_bytes(bytes, &stored[n..end]),
        Verdict::Differs => Verdict::Differs,
        Verdict::Malformed => Verdict::Differs,
    }
}

// A word motion by the count e, of big words where f is not 0.
fn classed_into(
    k: Head,
    text: &[u32],
    folds: &[u32],
    list: &[u32],
    classes: &mut [u8],
    stored: &[u32],
) -> Verdict
    ensures { result ≡ compared_of (classed_into k text.now folds.now
        list.now classes.old) stored.now }
{
    let mut out = [FILLER; 4];
    let n = call_classes::word_by_class(
        k.op, text, folds, list, k.a, k.b, k.c, k.d, k.f, k.e, classes, &mut out,
    );
    compared_all(n, &out, classes, stored)
}

// The classes of the text.
fn classes_into(text: &[u32], list: &[u32], classes: &mut [u8], stored: &[u32]) -> Verdict
    ensures { result ≡ compared_of (classes_into text.now list.now
        classes.old) stored.now }
{
    let mut out = [FILLER; 1];
    let n = call_classes::word_classes(text, list, classes, &mut out);
    compared_all(n, &out, classes, stored)
}

// The operation 5 writes the classes; the others are word motions.
fn into(
    k: Head,
    text: &[u32],
    folds: &[u32],
    list: &[u32],
    classes: &mut [u8],
    stored: &[u32],
) -> Verdict
    ensures { result ≡ compared_of (answered k text.now folds.now
        list.now classes.old) stored.now }
{
    if k.op == 5 {
        return classes_into(text, list, classes, stored);
    }
    classed_into(k, text, folds, list, classes, stored)
}

// Into a slice of g places, at most 64.
pub fn by_class(k: Head, text: &[u32], folds: &[u32], list: &[u32], stored: &[u32]) -> Verdict
    ensures { result ≡ class_verdict k text.now folds.now
        list.now stored.now }
{
    let room = k.g as usize;
    if room > 64 {
        return Verdict::Malformed;
    }
    let mut classes = [165u8; 64];
    into(k, text, folds, list, &mut classes[..room], stored)
}
