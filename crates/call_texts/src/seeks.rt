// `%` and the finds within a row.
ghost use Rattle.std.specs.Prelude.{◌≡◌, Some};
ghost use Rattle.call_bytes.specs.Reply.{Replied};
ghost use Rattle.call_texts.specs.Carets.{caret_of};
ghost use Rattle.call_texts.specs.Seeks.{sought, seek_of, seeks};

use crate::asks::seek_as;
use crate::moves::{caret_of, column_of, held_of};
use motions::{Move, Sought};

// Puts 1 or 0, found or missing, and the caret into `out`; answers 0, or the refusal's number.
pub fn tell(m: Sought, out: &mut [u32; 5]) -> u32
    ensures { Replied (sought m) out.old result out.new }
{
    match m {
        Sought::Found(k) => {
            let s = k.sticky;
            *out = [1, k.row, k.col, held_of(s), column_of(s)];
            0
        }
        Sought::Missing(k) => {
            let s = k.sticky;
            *out = [0, k.row, k.col, held_of(s), column_of(s)];
            0
        }
        Sought::Refused(f) => f,
    }
}

// A find within the row.
fn find(x: u32, forward: bool, till: bool, skip: bool) -> Option<Move>
    ensures { result ≡ Some (Move.Find x forward till skip) }
{
    Some(Move::Find {
        x: x,
        forward: forward,
        till: till,
        skip: skip,
    })
}

// What a number stands for: 0 `match_bracket`, which seeks no character; 1 and on
// `find_char_on_line`, 1 more for forward, 2 more for till, 4 more for skip_adjacent.
pub fn seek_of(op: u32, x: u32) -> Option<Move>
    ensures { result ≡ seek_of op x }
{
    match op {
        0 => Some(Move::Bracket),
        1 => find(x, false, false, false),
        2 => find(x, true, false, false),
        3 => find(x, false, true, false),
        4 => find(x, true, true, false),
        5 => find(x, false, false, true),
        6 => find(x, true, false, true),
        7 => find(x, false, true, true),
        8 => find(x, true, true, true),
        _ => None,
    }
}

// A search over a text of code points.
pub fn seek(
    op: u32,
    text: &[u32],
    row: u32,
    col: u32,
    held: u32,
    sticky: u32,
    x: u32,
    out: &mut [u32; 5],
) -> u32
    ensures { Replied (seeks op x (caret_of row col held sticky) text.now)
        out.old result out.new }
{
    let k = caret_of(row, col, held, sticky);
    tell(seek_as(seek_of(op, x), k, text), out)
}
