// Carets of six numbers: row, column, whether there is a sticky column, and that, whether an offset
// within a segment is kept, and that.
ghost use Rattle.std.specs.Prelude.{◌≡◌};
ghost use Rattle.call_bytes.specs.Reply.{Replied};
ghost use Rattle.call_texts.specs.Carets.{offset_of, caret_six, keeps, within, moved_six};

use crate::moves::{column_of, held_of, sticky_of};
use motions::{Caret, Moved};

// The offset within a segment that a host keeps, where its first number says that it keeps one.
fn offset_of(kept: u32, offset: u32) -> Option<u32>
    ensures { result ≡ offset_of kept offset }
{
    if kept == 0 {
        return None;
    }
    Some(offset)
}

// A caret of six numbers; it keeps no offset where `kept` is 0.
pub fn caret_six(row: u32, col: u32, held: u32, sticky: u32, kept: u32, offset: u32) -> Caret
    ensures { result ≡ caret_six row col held sticky kept offset }
{
    let s = sticky_of(held, sticky);
    let o = offset_of(kept, offset);
    Caret::with(row, col, s, o)
}

// 1 where an offset within the segment is kept, else 0.
fn keeps_of(o: Option<u32>) -> u32
    ensures { result ≡ keeps o }
{
    match o {
        None => 0,
        Some(_) => 1,
    }
}

// The offset that is kept, 0 where there is none.
fn within_of(o: Option<u32>) -> u32
    ensures { result ≡ within o }
{
    match o {
        None => 0,
        Some(x) => x,
    }
}

// Puts a caret that moved into `out` as six numbers, and answers 0 or the refusal's number.
pub fn place_six(m: Moved, out: &mut [u32; 6]) -> u32
    ensures { Replied (moved_six m) out.old result out.new }
{
    match m {
        Moved::To(k) => {
            let s = k.sticky;
            let o = k.offset;
            *out = [
                k.row,
                k.col,
                held_of(s),
                column_of(s),
                keeps_of(o),
                within_of(o),
            ];
            0
        }
        Moved::Refused(f) => f,
    }
}
