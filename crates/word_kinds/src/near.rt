// Steps from place to place, and the kind at a place: `step_forward`, `inc`, `dec`, `cls` and their
// like in motions.rs, "Internals".
ghost use Rattle.std.specs.Prelude.{◌≡◌, ◌+◌, ◌-◌, ◌<◌, eqb, length};
ghost use Rattle.text.specs.Text.{content_rows};
ghost use Rattle.word_kinds.specs.Places.{kind_at, cls, on_empty_row, next_row, step_forward};
ghost use Rattle.word_kinds.specs.Places.{inc, dec, end_of_buffer};
ghost use Rattle.word_kinds.specs.Spots.{place_of, IsSpot, Lands, Steps, Ends};
ghost use Rattle.word_kinds.specs.Lent.{Bounds, kinds_by};

use crate::{Alphabet, END, SPACE, Spot, kinds};

// The kind of the character at a place, `END` at the row's end.
pub fn kind_at(t: &[u32], by: &Alphabet<'_>, p: Spot) -> u32
    requires { Bounds t.now by.now × IsSpot t.now p }
    ensures { result ≡ kind_at t.now (kinds_by by.now)
        (place_of t.now p) }
{
    let at = p.at;
    if at >= t.len() {
        return END;
    }
    let x = t[at];
    if x == 10 {
        return END;
    }
    kinds::char_kind(by, x)
}

// The kind at a place, with the row's end as white space.
pub fn cls(t: &[u32], by: &Alphabet<'_>, p: Spot) -> u32
    requires { Bounds t.now by.now × IsSpot t.now p }
    ensures { result ≡ cls t.now (kinds_by by.now)
        (place_of t.now p) }
{
    let k = kind_at(t, by, p);
    if k == END { SPACE } else { k }
}

// Whether a place is the first of its row.
fn starts_row(t: &[u32], p: Spot) -> bool
    requires { IsSpot t.now p }
    ensures { result ≡ eqb (place_of t.now p).col 0 }
{
    let at = p.at;
    if at == 0 {
        return true;
    }
    let prev = at - 1;
    t[prev] == 10
}

// Whether a place is that of an empty row.
pub fn on_empty_row(t: &[u32], p: Spot) -> bool
    requires { IsSpot t.now p }
    ensures { result ≡ on_empty_row t.now (place_of t.now p) }
{
    if !starts_row(t, p) {
        return false;
    }
    let at = p.at;
    if at >= t.len() {
        return true;
    }
    t[at] == 10
}

// The first place of the row behind the separator at `end`, where that row has content.
fn next_row(t: &[u32], row: usize, end: usize) -> Option<Spot>
    requires { Ends t.now row end }
    ensures { Steps t.now (end + 1) (length t.now + 1) result
        (next_row t.now row) }
{
    let at = end + 1;
    if at < t.len() {
        return Some(Spot {
            row: row + 1,
            at: at,
        });
    }
    None
}

// One place on, over the row's end.
pub fn step_forward(t: &[u32], p: Spot) -> Option<Spot>
    requires { IsSpot t.now p }
    ensures { Steps t.now (p.at + 1) (length t.now + 1) result
        (step_forward t.now (place_of t.now p)) }
{
    let at = p.at;
    let row = p.row;
    if at >= t.len() {
        return None;
    }
    if t[at] == 10 {
        return next_row(t, row, at);
    }
    let next = at + 1;
    if next >= t.len() {
        return None;
    }
    if t[next] == 10 {
        return next_row(t, row, next);
    }
    Some(Spot { row: row, at: next })
}

// One place on, the row's end among them.
pub fn inc(t: &[u32], p: Spot) -> Option<Spot>
    requires { IsSpot t.now p }
    ensures { Steps t.now (p.at + 1) (length t.now + 1) result
        (inc t.now (place_of t.now p)) }
{
    let at = p.at;
    let row = p.row;
    if at >= t.len() {
        return None;
    }
    if t[at] == 10 {
        return next_row(t, row, at);
    }
    Some(Spot {
        row: row,
        at: at + 1,
    })
}

// One place back, the row's end among them.
pub fn dec(t: &[u32], p: Spot) -> Option<Spot>
    requires { IsSpot t.now p }
    ensures { Steps t.now 0 p.at result
        (dec t.now (place_of t.now p)) }
{
    let at = p.at;
    let row = p.row;
    if at == 0 {
        return None;
    }
    let prev = at - 1;
    if t[prev] == 10 {
        return Some(Spot {
            row: row - 1,
            at: prev,
        });
    }
    Some(Spot { row: row, at: prev })
}

// The end of the last row with content.
pub fn end_of_buffer(t: &[u32], content: usize) -> Spot
    requires { content ≡ content_rows t.now }
    ensures { Lands t.now result (end_of_buffer t.now) }
{
    let n = t.len();
    if n == 0 {
        return Spot {
            row: content - 1,
            at: n,
        };
    }
    let last = n - 1;
    if t[last] == 10 {
        return Spot {
            row: content - 1,
            at: last,
        };
    }
    Spot {
        row: content - 1,
        at: n,
    }
}
