// The move that a number asks for.
ghost use Rattle.std.specs.Prelude.{◌≡◌};
ghost use Rattle.call_texts.specs.Asks.{move_as, seek_as};

use motions::{Caret, Move, Moved, Sought};

// The caret after the move; 100 where the number stands for none.
pub fn move_as(
    a: Option<Move>,
    k: Caret,
    t: &[u32],
    folds: &[u32],
    list: &[u32],
    tabstop: u32,
    count: u32,
) -> Moved
    ensures { result ≡ move_as a count k t.now folds.now
        list.now tabstop }
{
    match a {
        Some(m) => k.moved_by(t, folds, list, tabstop, m, count),
        None => Moved::Refused(100),
    }
}

// The answer of a search, likewise.
pub(crate) fn seek_as(a: Option<Move>, k: Caret, t: &[u32]) -> Sought
    ensures { result ≡ seek_as a k t.now }
{
    let none = &t[..0];
    match a {
        Some(m) => k.go(t, none, none, 0, m, 1),
        None => Sought::Refused(100),
    }
}
