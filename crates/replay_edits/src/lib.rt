// Edits on the numbers of a case, compared with the stored answer: the text and the folds of a case
// are the buffers, its list is what is put in, and its caret keeps a sticky column and an offset.

#![tactic(auto)]

ghost use Rattle.std.specs.Prelude.{◌≡◌, ◌∷◌, ◌++◌, ◌+◌, ◌≤◌, length};
ghost use Rattle.print.specs.Print.{Wrote};
ghost use Rattle.replay_verdicts.specs.Answers.{compared as compared_of};
ghost use Rattle.replay_edits.specs.Edits.{Edits, edited_into, Buffers, edit_verdict};

use replay_rows::Head;
use replay_verdicts::{Verdict, compared};

// Writes numbers from an index on, and answers the next index.
pub fn put_all(out: &mut [u32], at: usize, s: &[u32]) -> usize
    requires { at + length s.now ≤ length out.old }
    ensures { Wrote out.old at s.now result out.new }
{
    let next = at + s.len();
    out[at..next].copy_from_slice(s);
    next
}

// A number, and what four lent slices hold one behind the other, against the stored answer.
fn compared_all(
    number: u32,
    caret: &[u32; 6],
    sizes: &[u32; 2],
    text: &[u32],
    folds: &[u32],
    stored: &[u32],
) -> Verdict
    requires { Buffers text.now folds.now }
    ensures { result ≡ compared_of (number ∷ (((caret.now ++ sizes.now)
        ++ text.now) ++ folds.now)) stored.now }
{
    let mut all = [0u32; 136];
    let a = put_all(&mut all, 0, caret);
    let b = put_all(&mut all, a, sizes);
    let c = put_all(&mut all, b, text);
    let d = put_all(&mut all, c, folds);
    compared(number, &all[..d], stored)
}

// The edit itself: operation 0 inserts, and any other deletes.
fn edited(
    k: Head,
    points: &[u32],
    text: &mut [u32],
    folds: &mut [u32],
    caret: &mut [u32; 6],
    sizes: &mut [u32; 2],
) -> u32
    ensures { Edits k points.now text.old folds.old
        caret.old sizes.old result text.new folds.new
        caret.new sizes.new }
{
    if k.op == 0 {
        return call_edits::insert(text, folds, points, k.a, k.b, caret, sizes);
    }
    call_edits::delete(text, folds, k.a, k.b, k.c, k.d, caret, sizes)
}

// On buffers of at most 64 places each.
fn edit_into(
    k: Head,
    points: &[u32],
    text: &mut [u32],
    folds: &mut [u32],
    stored: &[u32],
) -> Verdict
    requires { Buffers text.old folds.old }
    ensures { result ≡ compared_of (edited_into k points.now text.old
        folds.old) stored.now }
{
    let mut caret = [k.g, k.h, 1, 7, 1, 3];
    let mut sizes = [k.e, k.f];
    let n = edited(k, points, text, folds, &mut caret, &mut sizes);
    compared_all(n, &caret, &sizes, text, folds, stored)
}

// From row a and column b, a delete up to row c and column d; e code points and f folds are held,
// and the caret is at row g and column h.
pub fn edit(k: Head, text: &[u32], folds: &[u32], points: &[u32], stored: &[u32]) -> Verdict
    ensures { result ≡ edit_verdict k text.now folds.now
        points.now stored.now }
{
    let n = text.len();
    let m = folds.len();
    if n > 64 {
        return Verdict::Malformed;
    }
    if m > 64 {
        return Verdict::Malformed;
    }
    let mut buf = [0u32; 64];
    let mut held = [0u32; 64];
    put_all(&mut buf, 0, text);
    put_all(&mut held, 0, folds);
    edit_into(k, points, &mut buf[..n], &mut held[..m], stored)
}
