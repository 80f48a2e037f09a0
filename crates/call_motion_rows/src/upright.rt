// Up, down and the screen.
ghost use Rattle.std.specs.Prelude.{◌≡◌};
ghost use Rattle.call_bytes.specs.Reply.{Replied};
ghost use Rattle.call_texts.specs.Carets.{caret_of, caret_six};
ghost use Rattle.call_folds.specs.Upright.{verticals};
ghost use Rattle.call_folds.specs.Kept.{screens_kept};
ghost use Rattle.call_motion_rows.specs.Asks.{by_table, upright_by, kept_by};

use crate::asks::go_as;
use call_folds::{kept_of, mode_of, upright_of};
use call_rows::{plain_of, setting_of};
use call_texts::{caret_of, caret_six, place, place_six};
use motions::Move;

// The motion by its number, which may have the flag for wide, and the number of a mode; nothing for
// another mode, also where the motion has none.
fn upright_by(op: u32, mode: u32, width: u16) -> Option<Move>
    ensures { result ≡ upright_by op mode width }
{
    if mode > 2 {
        return None;
    }
    let w = mode_of(mode);
    let plain = plain_of(op);
    upright_of(plain, setting_of(op), w, width)
}

// The move that remembers, likewise.
fn kept_by(op: u32, mode: u32, width: u16) -> Option<Move>
    ensures { result ≡ kept_by op mode width }
{
    if mode > 2 {
        return None;
    }
    let w = mode_of(mode);
    let plain = plain_of(op);
    kept_of(plain, setting_of(op), w, width)
}

// `call_folds::vertical`, with a table.
pub fn vertical_rows(
    op: u32,
    text: &[u32],
    starts: &[u32],
    content: u32,
    folds: &[u32],
    row: u32,
    col: u32,
    held: u32,
    sticky: u32,
    mode: u32,
    width: u16,
    count: u32,
    tabstop: u32,
    out: &mut [u32; 4],
) -> u32
    ensures { Replied (by_table text.now starts.now content (verticals
        op mode width count tabstop (caret_of row col held sticky) text.now
        folds.now)) out.old result out.new }
{
    let k = caret_of(row, col, held, sticky);
    let none = &text[..0];
    let m = upright_by(op, mode, width);
    let a = go_as(m, k, text, starts, content, folds, none, tabstop, count);
    place(a.landed(), out)
}

// `call_folds::screen_kept`, with a table. The caret is six numbers, in and out.
pub fn screen_kept_rows(
    op: u32,
    text: &[u32],
    starts: &[u32],
    content: u32,
    folds: &[u32],
    row: u32,
    col: u32,
    held: u32,
    sticky: u32,
    kept: u32,
    offset: u32,
    mode: u32,
    width: u16,
    count: u32,
    tabstop: u32,
    out: &mut [u32; 6],
) -> u32
    ensures { Replied (by_table text.now starts.now content (screens_kept
        op mode width count tabstop (caret_six row col held sticky kept offset)
        text.now folds.now)) out.old result out.new }
{
    let k = caret_six(row, col, held, sticky, kept, offset);
    let none = &text[..0];
    let m = kept_by(op, mode, width);
    let a = go_as(m, k, text, starts, content, folds, none, tabstop, count);
    place_six(a.landed(), out)
}
