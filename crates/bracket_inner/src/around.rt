// The innermost pair of a kind around a position: back from the position to the open that is not
// closed before it, and on from the position to the close of that one. Brackets of other kinds do
// not count.
ghost use Rattle.std.specs.Prelude.{◌≡◌, ◌≤◌};
ghost use Rattle.bracket_walks.specs.Matching.{close_from, placed};
ghost use Rattle.bracket_inner.specs.Inner.{after, ranges, paired, pair_from, inner_open};
ghost use Rattle.bracket_inner.specs.Inner.{inner_pair};
ghost use Rattle.bracket_inner.specs.Walk.{Stays, BriefPair, OpenBefore, stands_at};

use crate::{Inner, Ranges};
use bracket_kinds::{Kind, kinds};
use bracket_walks::{Partner, walks};
use text::{Line, Position};

// The position one column on.
fn next(p: Position) -> Position
    requires { p.col ≤ 1048576 }
    ensures { result ≡ after p }
{
    Position {
        row: p.row,
        col: p.col + 1,
    }
}

// The ranges of the pair with its open at `p` and its close at `q`.
fn ranges_of(p: Position, q: Position) -> Ranges
    requires { BriefPair p q }
    ensures { result ≡ ranges p q }
{
    let from = next(p);
    let past = next(q);
    Ranges {
        opening: p,
        from: from,
        to: q,
        past: past,
    }
}

// The pair of the open at `p`, the last one that is open at the offset `at` of the row `l`; or none
// where it is not closed from there on.
fn closed(t: &[u32], l: Line, at: usize, p: Position, opening: u32, closing: u32) -> Inner
    requires { OpenBefore t.now l at p opening closing }
    ensures { result ≡ paired p (placed t.now
        (close_from opening closing t.now at 1)) }
{
    match walks::match_forward(t, l, at, 1, opening, closing) {
        Partner::There(q) => Inner::Pair(ranges_of(p, q)),
        Partner::None => Inner::None, // the open has no partner
        Partner::Refused(f) => Inner::Refused(f),
    }
}

// Whether the code point `x` stands at an offset.
fn stands_at(t: &[u32], at: usize, x: u32) -> bool
    ensures { result ≡ stands_at t.now at x }
{
    if at >= t.len() {
        return false;
    }
    t[at] == x
}

// The innermost pair of a kind around the offset `at`, which is the position `x` of the row `l`.
fn pair_around(t: &[u32], l: Line, at: usize, x: Position, k: Kind) -> Inner
    requires { Stays t.now l at x }
    ensures { result ≡ pair_from t.now (inner_open k t.now at) }
{
    let o = kinds::open_code(k);
    let c = kinds::close_code(k);
    if stands_at(t, at, o) {
        return closed(t, l, at + 1, x, o, c);
    }
    match walks::match_backward(t, l, at, 1, o, c) {
        Partner::There(p) => closed(t, l, at, p, o, c),
        Partner::None => Inner::None,
        Partner::Refused(f) => Inner::Refused(f),
    }
}

// The innermost pair of a kind that encloses a position, as two ranges, or none where no pair of
// the kind does. A position on either bracket is enclosed; the column may be the row's character
// count, and one beyond it, or a row beyond the text's, is refused (4), after the text (1, 2, 3).
pub fn inner_pair(t: &[u32], k: Kind, row: u32, col: u32) -> Inner
    ensures { result ≡ inner_pair t.now k row col }
{
    let p = Position {
        row: row as usize,
        col: col as usize,
    };
    let e = positions::enter(t, p);
    if e.refusal != 0 {
        return Inner::Refused(e.refusal);
    }
    let l = Line {
        row: row as usize,
        start: e.start,
    };
    pair_around(t, l, e.start + col as usize, p, k)
}
