// Up, down and the screen.
ghost use Rattle.std.specs.Prelude.{◌≡◌, Some};
ghost use Rattle.call_bytes.specs.Reply.{Replied};
ghost use Rattle.call_texts.specs.Carets.{caret_of};
ghost use Rattle.call_rows.specs.Wraps.{mode_of};
ghost use Rattle.call_folds.specs.Upright.{upright_of, verticals};
ghost use Rattle.call_folds.specs.Upright.{vertical as vertical_of};

use call_rows::{plain_of, setting_of};
use call_texts::{caret_of, move_as, place};
use motions::{Caret, Move, Moved};
use row_wrap::Wrap;
use widths::Ambiguous;

// The modes by their numbers: 0 None, 1 Char, 2 Word.
pub fn mode_of(mode: u32) -> Wrap
    ensures { result ≡ mode_of mode }
{
    match mode {
        0 => Wrap::None,
        1 => Wrap::Char,
        _ => Wrap::Word,
    }
}

// A screen motion.
fn screen(mode: Wrap, width: u16, down: bool, ambiguous: Ambiguous) -> Option<Move>
    ensures { result ≡ Some (Move.Screen mode width down ambiguous) }
{
    Some(Move::Screen {
        mode: mode,
        width: width,
        down: down,
        ambiguous: ambiguous,
    })
}

// Up or down.
fn rows(down: bool, ambiguous: Ambiguous) -> Option<Move>
    ensures { result ≡ Some (Move.Rows down ambiguous) }
{
    Some(Move::Rows {
        down: down,
        ambiguous: ambiguous,
    })
}

// The motion that a number stands for under a setting: 0 `move_up`, 1 `move_down`, 2
// `move_screen_up`, 3 `move_screen_down`.
pub fn upright_of(op: u32, ambiguous: Ambiguous, mode: Wrap, width: u16) -> Option<Move>
    ensures { result ≡ upright_of ambiguous op mode width }
{
    match op {
        0 => rows(false, ambiguous),
        1 => rows(true, ambiguous),
        2 => screen(mode, width, false, ambiguous),
        3 => screen(mode, width, true, ambiguous),
        _ => None,
    }
}

// The answer, by the number of a mode; 100 for another number, also where the motion has no mode.
fn vertical_by(
    op: u32,
    k: Caret,
    t: &[u32],
    folds: &[u32],
    mode: u32,
    width: u16,
    count: u32,
    tabstop: u32,
) -> Moved
    ensures { result ≡ vertical_of op mode width count tabstop k t.now
        folds.now }
{
    if mode > 2 {
        return Moved::Refused(100);
    }
    let w = mode_of(mode);
    let plain = plain_of(op);
    move_as(
        upright_of(plain, setting_of(op), w, width),
        k,
        t,
        folds,
        &t[..0],
        tabstop,
        count,
    )
}

// A vertical or screen motion over a text of code points, with folds; the number may have the flag
// for wide.
pub fn vertical(
    op: u32,
    text: &[u32],
    folds: &[u32],
    row: u32,
    col: u32,
    held: u32,
    sticky: u32,
    mode: u32,
    width: u16,
    count: u32,
    tabstop: u32,
    out: &mut [u32; 4],
) -> u32
    ensures { Replied (verticals op mode width count tabstop (caret_of row col held sticky)
        text.now folds.now) out.old result out.new }
{
    let k = caret_of(row, col, held, sticky);
    place(
        vertical_by(op, k, text, folds, mode, width, count, tabstop),
        out,
    )
}
