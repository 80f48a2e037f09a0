// The checks of an edit, in the order of the refusals: the text and the code points put in (1, 2,
// 3), the caret (4), the folds (5), the stretch (11), the room (12). From document 02, #102.

#![tactic(auto)]

ghost use Rattle.std.specs.Prelude.{◌≡◌, length};
ghost use Rattle.edit_checks.specs.Refusals.{lower, held_folds, room_refusal};
ghost use Rattle.edit_checks.specs.Checks.{spot_of, SoughtFrom, RowsOf};
ghost use Rattle.edit_checks.specs.Checks.{refused_by, stretch_of, check_of};

use text::{Line, Position};

// What the checks of an edit find out: its refusal, the offsets at which the stretch starts and
// ends, and how many rows the text has. They are 0 beside a refusal.
#[derive(Clone, Copy)]
pub struct Checked {
    pub refusal: u32,
    pub from: usize,
    pub to: usize,
    pub rows: usize,
}

// How much of its buffers an edit takes for its text and its folds: so many code points, and so
// many folds of three numbers each.
#[derive(Clone, Copy)]
pub struct Sizes {
    pub len: usize,
    pub count: usize,
}

// A refusal, beside which nothing is known.
fn refused(f: u32) -> Checked
    ensures { result ≡ refused_by f }
{
    Checked {
        refusal: f,
        from: 0,
        to: 0,
        rows: 0,
    }
}

// The smaller of two numbers that refuse, or 0 where neither does.
fn lower(f: u32, g: u32) -> u32
    ensures { result ≡ lower f g }
{
    if f == 0 {
        return g;
    }
    if g == 0 {
        return f;
    }
    if f < g { f } else { g }
}

// 5 where the buffer has no room for so many folds, or they are refused over so many rows; else 0.
fn held_folds(folds: &[u32], count: usize, rows: usize) -> u32
    ensures { result ≡ held_folds folds.now count rows }
{
    if count > folds.len() / 3 {
        return 5;
    }
    let n = 3 * count;
    folds::fold_refusal(&folds[..n], rows)
}

// The row of a position, sought from the row `from`, in a text of so many rows.
fn spot_in(t: &[u32], rows: usize, from: Line, p: Position) -> Option<Line>
    requires { SoughtFrom t.now rows from }
    ensures { result ≡ spot_of t.now p }
{
    if p.row >= rows {
        return None;
    }
    let l = text::offsets::line_from(t, rows, from, p.row);
    let n = text::offsets::row_len(t, l);
    if p.col > n {
        return None;
    }
    Some(l)
}

// The offsets of a stretch from p up to q; 11 where one of them stands outside the text, or q
// before p.
fn stretch(t: &[u32], rows: usize, p: Position, q: Position) -> Checked
    requires { RowsOf t.now rows }
    ensures { result ≡ stretch_of t.now p q }
{
    let first = Line { row: 0, start: 0 };
    let Some(l) = spot_in(t, rows, first, p) else {
        return refused(11);
    };
    let Some(m) = spot_in(t, rows, l, q) else {
        return refused(11);
    };
    if edit_positions::is_before(q, p) {
        return refused(11);
    }
    Checked {
        refusal: 0,
        from: l.start + p.col,
        to: m.start + q.col,
        rows: rows,
    }
}

// 12 where a text of n code points is too long for the buffer, or for any; else 0.
fn room(buf: &[u32], n: usize) -> u32
    ensures { result ≡ room_refusal (length buf.now) n }
{
    if n > buf.len() {
        return 12;
    }
    if n > 1048576 {
        return 12;
    }
    0
}

// The checks of an edit: the text is the first `s.len` places of `buf`, the folds are the first
// `s.count` of `folds`, and the stretch from p up to q is to give way to `points`, with the caret
// at k.
pub fn check(
    buf: &[u32],
    folds: &[u32],
    s: Sizes,
    p: Position,
    q: Position,
    points: &[u32],
    k: Position,
) -> Checked
    ensures { result ≡ check_of buf.now folds.now s p q points.now
        k }
{
    let len = s.len;
    if len > buf.len() {
        return refused(1);
    }
    let t = &buf[..len];
    let e = positions::enter(t, k);
    let f = lower(e.refusal, text_check::text_refusal(points));
    if f != 0 {
        return refused(f);
    }
    let g = held_folds(folds, s.count, e.rows);
    if g != 0 {
        return refused(g);
    }
    let c = stretch(t, e.rows, p, q);
    if c.refusal != 0 {
        return c;
    }
    let h = room(buf, len - (c.to - c.from) + points.len());
    if h != 0 {
        return refused(h);
    }
    c
}
