// What a number asks for, beside a table.
ghost use Rattle.std.specs.Prelude.{◌≡◌};
ghost use Rattle.call_motion_rows.specs.Asks.{rows_as};

use motions::{Caret, Move, Sought};

// The answer of the move; 100 where the number stands for none.
pub(crate) fn go_as(
    a: Option<Move>,
    k: Caret,
    t: &[u32],
    starts: &[u32],
    content: u32,
    folds: &[u32],
    list: &[u32],
    tabstop: u32,
    count: u32,
) -> Sought
    ensures { result ≡ rows_as a count k t.now starts.now content
        folds.now list.now tabstop }
{
    match a {
        Some(m) => { motion_rows::go_rows(k, t, starts, content, folds, list, tabstop, m, count) }
        None => Sought::Refused(100),
    }
}
