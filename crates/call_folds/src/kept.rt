// The screen moves that remember.
ghost use Rattle.std.specs.Prelude.{◌≡◌, Some};
ghost use Rattle.call_bytes.specs.Reply.{Replied};
ghost use Rattle.call_texts.specs.Carets.{caret_six};
ghost use Rattle.call_folds.specs.Kept.{kept_of, screen_kept, screens_kept};

use crate::upright::mode_of;
use call_rows::{plain_of, setting_of};
use call_texts::{caret_six, move_as, place_six};
use motions::{Caret, Move, Moved};
use row_wrap::Wrap;
use widths::Ambiguous;

// A screen move that remembers.
fn asked(mode: Wrap, width: u16, down: bool, ambiguous: Ambiguous) -> Option<Move>
    ensures { result ≡ Some (Move.ScreenKept mode width down ambiguous) }
{
    Some(Move::ScreenKept {
        mode: mode,
        width: width,
        down: down,
        ambiguous: ambiguous,
    })
}

// The move that a number stands for under a setting: 0 `move_screen_up_kept`, 1
// `move_screen_down_kept`.
pub fn kept_of(op: u32, ambiguous: Ambiguous, mode: Wrap, width: u16) -> Option<Move>
    ensures { result ≡ kept_of ambiguous op mode width }
{
    match op {
        0 => asked(mode, width, false, ambiguous),
        1 => asked(mode, width, true, ambiguous),
        _ => None,
    }
}

// The answer, by the number of a mode; 100 for another number.
fn kept_by(
    op: u32,
    k: Caret,
    t: &[u32],
    folds: &[u32],
    mode: u32,
    width: u16,
    count: u32,
    tabstop: u32,
) -> Moved
    ensures { result ≡ screen_kept op mode width count tabstop k t.now
        folds.now }
{
    if mode > 2 {
        return Moved::Refused(100);
    }
    let w = mode_of(mode);
    let plain = plain_of(op);
    move_as(
        kept_of(plain, setting_of(op), w, width),
        k,
        t,
        folds,
        &t[..0],
        tabstop,
        count,
    )
}

// A screen move that remembers over a text of code points, with folds. The caret is six numbers, in
// and out; the number may have the flag for wide.
pub fn screen_kept(
    op: u32,
    text: &[u32],
    folds: &[u32],
    row: u32,
    col: u32,
    held: u32,
    sticky: u32,
    kept: u32,
    offset: u32,
    mode: u32,
    width: u16,
    count: u32,
    tabstop: u32,
    out: &mut [u32; 6],
) -> u32
    ensures { Replied (screens_kept op mode width count tabstop
        (caret_six row col held sticky kept offset) text.now folds.now)
        out.old result out.new }
{
    let k = caret_six(row, col, held, sticky, kept, offset);
    place_six(
        kept_by(op, k, text, folds, mode, width, count, tabstop),
        out,
    )
}
