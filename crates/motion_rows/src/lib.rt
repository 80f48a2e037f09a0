// Every motion with a table of row starts, its second entry: the rows of the text and the row of
// the caret come from the table, and the walks are those of the first. From document 02, #106.

#![tactic(auto)]

ghost use Rattle.std.specs.Prelude.{◌≡◌};
ghost use Rattle.motion_rows.specs.Going.{or_table, goes_rows};

use motions::{Caret, Move, Sought};
use text::Position;

// An answer of the first entry, beside a table that is refused with g.
fn or_table(g: u32, answer: Sought) -> Sought
    ensures { result ≡ or_table g answer }
{
    match answer {
        Sought::Refused(f) => Sought::Refused(f),
        Sought::Found(k) => {
            if g == 0 {
                return Sought::Found(k);
            }
            Sought::Refused(g)
        }
        Sought::Missing(k) => {
            if g == 0 {
                return Sought::Missing(k);
            }
            Sought::Refused(g)
        }
    }
}

// Any motion, with the text's row starts and its number of rows with content. Refused are what the
// first entry, `Caret::go`, refuses, then a table with fewer places than the text has rows (15),
// and one that is not the text's, or that stands beside another number (16).
pub fn go_rows(
    k: Caret,
    t: &[u32],
    starts: &[u32],
    content: u32,
    folds: &[u32],
    list: &[u32],
    tabstop: u32,
    m: Move,
    count: u32,
) -> Sought
    ensures { result ≡ goes_rows t.now starts.now content
        folds.now
        list.now tabstop m count k }
{
    let c = text_rows::checked(t, starts, content);
    let g = c.table;
    if g != 0 {
        return or_table(g, k.go(t, folds, list, tabstop, m, count));
    }
    if c.refusal != 0 {
        return k.go(t, folds, list, tabstop, m, count);
    }
    let p = Position {
        row: k.row as usize,
        col: k.col as usize,
    };
    let e = row_entries::enter_by(t, starts, c.rows, content, p);
    motions::go_from(k, t, folds, list, tabstop, e, m, count)
}
