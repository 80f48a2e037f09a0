// Edits that keep a table: the text and the folds of a case are the buffers, and its caret keeps a
// sticky column and an offset.
ghost use Rattle.std.specs.Prelude.{◌≡◌, ◌∷◌, ◌++◌, ◌≤◌, length};
ghost use Rattle.replay_verdicts.specs.Answers.{compared as compared_of};
ghost use Rattle.replay_tables.specs.Edits.{Keeps, kept_into, edit_verdict};

use replay_edits::put_all;
use replay_rows::Head;
use replay_verdicts::{Verdict, compared};

// A number, and what five lent slices hold one behind the other, against the stored answer.
fn compared_all(
    number: u32,
    caret: &[u32; 6],
    sizes: &[u32; 3],
    text: &[u32],
    folds: &[u32],
    table: &[u32],
    stored: &[u32],
) -> Verdict
    requires { (length text.now ≤ 64) × (length folds.now ≤ 64)
        × (length table.now ≤ 64) }
    ensures { result ≡ compared_of (number ∷ ((((caret.now ++ sizes.now)
        ++ text.now) ++ folds.now) ++ table.now))
        stored.now }
{
    let mut all = [0u32; 201];
    let a = put_all(&mut all, 0, caret);
    let b = put_all(&mut all, a, sizes);
    let c = put_all(&mut all, b, text);
    let d = put_all(&mut all, c, folds);
    let e = put_all(&mut all, d, table);
    compared(number, &all[..e], stored)
}

// The edit itself: operation 1 inserts, and any other deletes.
fn edited(
    k: Head,
    points: &[u32],
    text: &mut [u32],
    folds: &mut [u32],
    table: &mut [u32],
    caret: &mut [u32; 6],
    sizes: &mut [u32; 3],
) -> u32
    ensures { Keeps k points.now text.old folds.old
        table.old caret.old sizes.old result text.new
        folds.new table.new caret.new sizes.new }
{
    if k.op == 1 {
        return call_row_table::insert_rows(text, folds, table, points, k.a, k.b, caret, sizes);
    }
    call_row_table::delete_rows(text, folds, table, k.a, k.b, k.c, k.d, caret, sizes)
}

// On buffers of at most 64 places each.
fn edit_into(
    k: Head,
    points: &[u32],
    content: u32,
    text: &mut [u32],
    folds: &mut [u32],
    table: &mut [u32],
    stored: &[u32],
) -> Verdict
    requires { (length text.old ≤ 64) × (length folds.old ≤ 64)
        × (length table.old ≤ 64) }
    ensures { result ≡ compared_of (kept_into k points.now content
        text.old folds.old table.old) stored.now }
{
    let mut caret = [k.g, k.h, 1, 7, 1, 3];
    let mut sizes = [k.e, k.f, content];
    let n = edited(k, points, text, folds, table, &mut caret, &mut sizes);
    compared_all(n, &caret, &sizes, text, folds, table, stored)
}

// From row a and column b, a delete up to row c and column d; e code points and f folds are held,
// and the caret is at row g and column h.
pub(crate) fn edit(
    k: Head,
    text: &[u32],
    folds: &[u32],
    content: u32,
    table: &[u32],
    points: &[u32],
    stored: &[u32],
) -> Verdict
    ensures { result ≡ edit_verdict k text.now folds.now content
        table.now points.now stored.now }
{
    let n = text.len();
    let m = folds.len();
    let o = table.len();
    if n > 64 {
        return Verdict::Malformed;
    }
    if m > 64 {
        return Verdict::Malformed;
    }
    if o > 64 {
        return Verdict::Malformed;
    }
    let mut buf = [0u32; 64];
    let mut held = [0u32; 64];
    let mut places = [0u32; 64];
    put_all(&mut buf, 0, text);
    put_all(&mut held, 0, folds);
    put_all(&mut places, 0, table);
    edit_into(
        k,
        points,
        content,
        &mut buf[..n],
        &mut held[..m],
        &mut places[..o],
        stored,
    )
}
