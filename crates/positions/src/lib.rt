// Positions of a text: the checks of one, which every motion begins with.
// From document 01, "Text, rows, carets" and "Refusal numbers".

#![tactic(auto)]

ghost use Rattle.std.specs.Prelude.{◌≡◌};
ghost use Rattle.chars.specs.Scalar.{is_scalar};
ghost use Rattle.positions.specs.Positions.{refused_by, entry_of, or_sought, or_folds};

use text::Position;

// What the checks of a call find out: its refusal, where the position's row starts, how many rows
// the text has, and how many have content. The numbers are 0 beside a refusal.
#[derive(Clone, Copy)]
pub struct Entry {
    pub refusal: u32,
    pub start: usize,
    pub rows: usize,
    pub content: usize,
}

// A refusal, beside which nothing is known.
pub fn refused(f: u32) -> Entry
    ensures { result ≡ refused_by f }
{
    Entry {
        refusal: f,
        start: 0,
        rows: 0,
        content: 0,
    }
}

// The checks that every motion begins with: the text (1, 2, 3), then the position (4). The rows are
// counted here, once for the call, and the position's row is found while they are.
pub fn enter(t: &[u32], p: Position) -> Entry
    ensures { result ≡ entry_of t.now p }
{
    let f = text_check::text_refusal(t);
    if f != 0 {
        return refused(f);
    }
    let l = text::offsets::reach(t, p.row);
    if l.row < p.row {
        return refused(4);
    }
    let n = text::offsets::row_len(t, l);
    if p.col > n {
        return refused(4);
    }
    let rows = text::offsets::rows_from(t, l);
    Entry {
        refusal: 0,
        start: l.start,
        rows: rows,
        content: text::content_of(t, rows),
    }
}

// The refusal with a character sought too: 2 where it is no scalar value, next after 1.
pub fn or_sought(e: Entry, x: u32) -> u32
    ensures { result ≡ or_sought e.refusal (is_scalar x) }
{
    if e.refusal == 1 {
        return 1;
    }
    if !chars::is_scalar(x) {
        return 2;
    }
    e.refusal
}

// The refusal with folds too: text, position, and then those (5).
pub fn or_folds(e: Entry, folds: &[u32]) -> u32
    ensures { result ≡ or_folds e folds.now }
{
    if e.refusal != 0 {
        return e.refusal;
    }
    folds::fold_refusal(folds, e.rows)
}
