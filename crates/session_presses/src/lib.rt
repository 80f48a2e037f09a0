// What a key of a session does.

#![tactic(auto)]

ghost use Rattle.std.specs.Prelude.{◌≡◌, false, Some};
ghost use Rattle.session_presses.specs.Pressed.{act_of, does, sticky_after, pressed};
ghost use Rattle.session_presses.specs.Pressed.{held as held_of};

use motions::{Caret, Move, Moved};
use session_keys::Key;
use text_moves::Way;
use widths::Ambiguous;
use word_rounds::Motion;

// The keyword list `@,48-57,_`.
const LIST: [u32; 9] = [64, 44, 52, 56, 45, 53, 55, 44, 95];

// What becomes of the sticky column after a key: it is cleared, stays as the move left it, or is
// set past the end of every row.
#[derive(Clone, Copy)]
pub enum Column {
    Cleared,
    Kept,
    Ends,
}

// A move on the text alone, after which there is no sticky column.
fn by(w: Way) -> Option<(Move, Column)>
    ensures { result ≡ Some (Move.By w, Column.Cleared) }
{
    Some((Move::By(w), Column::Cleared))
}

// A word motion; `e` and `E` have stop off.
fn word(big: bool, motion: Motion) -> Option<(Move, Column)>
    ensures { result ≡ Some (Move.Word motion big false, Column.Cleared) }
{
    let m = Move::Word {
        motion: motion,
        big: big,
        stop: false,
    };
    Some((m, Column::Cleared))
}

// Up or down, by the sticky column that there is. A session has no setting for widths: narrow.
fn rows(down: bool) -> Option<(Move, Column)>
    ensures { result ≡ Some (Move.Rows down Ambiguous.Narrow, Column.Kept) }
{
    let m = Move::Rows {
        down: down,
        ambiguous: Ambiguous::Narrow,
    };
    Some((m, Column::Kept))
}

// What each key does.
fn act_of(key: Key) -> Option<(Move, Column)>
    ensures { result ≡ act_of key }
{
    match key {
        Key::Left => by(Way::Left),
        Key::Right => by(Way::RightInLine),
        Key::Word => word(false, Motion::Fwd),
        Key::Back => word(false, Motion::Back),
        Key::End => word(false, Motion::End),
        Key::BigWord => word(true, Motion::Fwd),
        Key::BigBack => word(true, Motion::Back),
        Key::BigEnd => word(true, Motion::End),
        Key::EndBack => word(false, Motion::EndBack),
        Key::BigEndBack => word(true, Motion::EndBack),
        Key::LineStart => by(Way::LineStart),
        Key::FirstNonBlank => by(Way::FirstNonBlank),
        Key::LineEnd => Some((Move::By(Way::LineEnd), Column::Ends)),
        Key::LastNonBlank => by(Way::LastNonBlank),
        Key::ParagraphPrev => by(Way::ParagraphPrev),
        Key::ParagraphNext => by(Way::ParagraphNext),
        Key::SectionBackward => by(Way::SectionBackward),
        Key::SectionForward => by(Way::SectionForward),
        Key::SectionEndBackward => by(Way::SectionEndBackward),
        Key::SectionEndForward => by(Way::SectionEndForward),
        Key::NextLine => by(Way::NextLine),
        Key::PrevLine => by(Way::PrevLine),
        Key::Line => by(Way::ThisLine),
        Key::Top => by(Way::Top),
        Key::Bottom => by(Way::Bottom),
        Key::Column => by(Way::GotoColumn),
        Key::Bracket => Some((Move::Bracket, Column::Cleared)),
        Key::Down => rows(true),
        Key::Up => rows(false),
        Key::Unknown => None,
    }
}

// The sticky column after a move that left `s`.
fn sticky_after(c: Column, s: Option<u32>) -> Option<u32>
    ensures { result ≡ sticky_after c s }
{
    match c {
        Column::Cleared => None,
        Column::Kept => s,
        Column::Ends => Some(4294967295),
    }
}

// The answer with its sticky column; a refused call has none to change.
fn held(c: Column, m: Moved) -> Moved
    ensures { result ≡ held_of c m }
{
    match m {
        Moved::To(k) => {
            let s = k.sticky;
            let o = k.offset;
            Moved::To(Caret::with(k.row, k.col, sticky_after(c, s), o))
        }
        Moved::Refused(f) => Moved::Refused(f),
    }
}

// A move with no folds and a tabstop of 8.
fn motion(m: Move, t: &[u32], n: u32, k: Caret) -> Moved
    ensures { result ≡ does m t.now n k }
{
    let list = LIST;
    k.moved_by(t, &t[..0], &list, 8, m, n)
}

// What a key does with a count: where it leads to, or the number that the call is refused with, 0
// for an unknown key.
pub fn press(key: &[u8], k: Caret, t: &[u32], n: u32) -> Moved
    ensures { result ≡ pressed key.now t.now n k }
{
    match act_of(session_keys::key_of(key)) {
        Some((m, c)) => held(c, motion(m, t, n, k)),
        None => Moved::Refused(0),
    }
}
