// Motions of a text and a caret.
ghost use Rattle.std.specs.Prelude.{◌≡◌};
ghost use Rattle.call_bytes.specs.Reply.{Replied};
ghost use Rattle.call_texts.specs.Carets.{sticky_of, caret_of, held, column, moved};
ghost use Rattle.call_texts.specs.Moves.{way_of, motions};

use crate::asks::move_as;
use motions::{Caret, Move, Moved};
use text_moves::Way;

// A caret of four numbers; it has no sticky column where `held` is 0.
pub fn caret_of(row: u32, col: u32, held: u32, sticky: u32) -> Caret
    ensures { result ≡ caret_of row col held sticky }
{
    let s = sticky_of(held, sticky);
    Caret::at(row, col, s)
}

pub(crate) fn sticky_of(held: u32, sticky: u32) -> Option<u32>
    ensures { result ≡ sticky_of held sticky }
{
    if held == 0 {
        return None;
    }
    Some(sticky)
}

// 1 where a column is remembered, else 0.
pub fn held_of(s: Option<u32>) -> u32
    ensures { result ≡ held s }
{
    match s {
        None => 0,
        Some(_) => 1,
    }
}

// The column that is remembered, 0 where there is none.
pub fn column_of(s: Option<u32>) -> u32
    ensures { result ≡ column s }
{
    match s {
        None => 0,
        Some(x) => x,
    }
}

// Puts a caret that moved into `out`, and answers 0 or the refusal's number.
pub fn place(m: Moved, out: &mut [u32; 4]) -> u32
    ensures { Replied (moved m) out.old result out.new }
{
    match m {
        Moved::To(k) => {
            let s = k.sticky;
            *out = [k.row, k.col, held_of(s), column_of(s)];
            0
        }
        Moved::Refused(f) => f,
    }
}

// The move that a number stands for, in the order of motions.rs.
pub fn way_of(op: u32) -> Option<Move>
    ensures { result ≡ way_of op }
{
    match op {
        0 => Some(Move::By(Way::Left)),
        1 => Some(Move::By(Way::RightInLine)),
        2 => Some(Move::By(Way::RightToEnd)),
        3 => Some(Move::By(Way::SpaceFwd)),
        4 => Some(Move::By(Way::BackspaceBack)),
        5 => Some(Move::By(Way::LineStart)),
        6 => Some(Move::By(Way::FirstNonBlank)),
        7 => Some(Move::By(Way::LineEnd)),
        8 => Some(Move::By(Way::GotoColumn)),
        9 => Some(Move::By(Way::LastNonBlank)),
        10 => Some(Move::By(Way::ParagraphPrev)),
        11 => Some(Move::By(Way::ParagraphNext)),
        12 => Some(Move::By(Way::SectionBackward)),
        13 => Some(Move::By(Way::SectionForward)),
        14 => Some(Move::By(Way::SectionEndBackward)),
        15 => Some(Move::By(Way::SectionEndForward)),
        16 => Some(Move::By(Way::NextLine)),
        17 => Some(Move::By(Way::PrevLine)),
        18 => Some(Move::By(Way::ThisLine)),
        19 => Some(Move::By(Way::Top)),
        20 => Some(Move::By(Way::Bottom)),
        _ => None,
    }
}

// A motion over a text of code points.
pub fn motion(
    op: u32,
    text: &[u32],
    row: u32,
    col: u32,
    held: u32,
    sticky: u32,
    count: u32,
    out: &mut [u32; 4],
) -> u32
    ensures { Replied (motions op count (caret_of row col held sticky) text.now)
        out.old result out.new }
{
    let k = caret_of(row, col, held, sticky);
    let none = &text[..0];
    place(move_as(way_of(op), k, text, none, none, 0, count), out)
}
