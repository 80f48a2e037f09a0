// Motions of a text and a caret, words, the viewport and searches.
ghost use Rattle.call_bytes.specs.Reply.{Replied};
ghost use Rattle.call_texts.specs.Carets.{caret_of};
ghost use Rattle.call_texts.specs.Moves.{motions};
ghost use Rattle.call_texts.specs.Viewports.{viewports};
ghost use Rattle.call_texts.specs.Seeks.{seeks};
ghost use Rattle.call_folds.specs.Terms.{is_big, words};
ghost use Rattle.call_motion_rows.specs.Asks.{by_table};

use crate::asks::go_as;
use call_folds::word_of;
use call_texts::{caret_of, edge_of, place, seek_of, tell, way_of};

// `call_texts::motion`, with a table.
pub fn motion_rows(
    op: u32,
    text: &[u32],
    starts: &[u32],
    content: u32,
    row: u32,
    col: u32,
    held: u32,
    sticky: u32,
    count: u32,
    out: &mut [u32; 4],
) -> u32
    ensures { Replied (by_table text.now starts.now content
        (motions op count (caret_of row col held sticky) text.now)) out.old result
        out.new }
{
    let k = caret_of(row, col, held, sticky);
    let none = &text[..0];
    let m = way_of(op);
    let a = go_as(m, k, text, starts, content, none, none, 0, count);
    place(a.landed(), out)
}

// `call_folds::word`, with a table.
pub fn word_rows(
    op: u32,
    text: &[u32],
    starts: &[u32],
    content: u32,
    folds: &[u32],
    list: &[u32],
    row: u32,
    col: u32,
    held: u32,
    sticky: u32,
    big: u32,
    count: u32,
    out: &mut [u32; 4],
) -> u32
    ensures { Replied (by_table text.now starts.now content (words op
        (is_big big) count (caret_of row col held sticky) text.now folds.now
        list.now)) out.old result out.new }
{
    let k = caret_of(row, col, held, sticky);
    let m = word_of(op, big != 0);
    let a = go_as(m, k, text, starts, content, folds, list, 0, count);
    place(a.landed(), out)
}

// `call_texts::viewport`, with a table.
pub fn viewport_rows(
    op: u32,
    text: &[u32],
    starts: &[u32],
    content: u32,
    row: u32,
    col: u32,
    held: u32,
    sticky: u32,
    top: u32,
    height: u16,
    offset: u32,
    out: &mut [u32; 4],
) -> u32
    ensures { Replied (by_table text.now starts.now content
        (viewports op top height offset (caret_of row col held sticky) text.now))
        out.old result out.new }
{
    let k = caret_of(row, col, held, sticky);
    let none = &text[..0];
    let m = edge_of(op, top, height, offset);
    let a = go_as(m, k, text, starts, content, none, none, 0, 1);
    place(a.landed(), out)
}

// `call_texts::seek`, with a table.
pub fn seek_rows(
    op: u32,
    text: &[u32],
    starts: &[u32],
    content: u32,
    row: u32,
    col: u32,
    held: u32,
    sticky: u32,
    x: u32,
    out: &mut [u32; 5],
) -> u32
    ensures { Replied (by_table text.now starts.now content
        (seeks op x (caret_of row col held sticky) text.now)) out.old result
        out.new }
{
    let k = caret_of(row, col, held, sticky);
    let none = &text[..0];
    let m = seek_of(op, x);
    tell(go_as(m, k, text, starts, content, none, none, 0, 1), out)
}
