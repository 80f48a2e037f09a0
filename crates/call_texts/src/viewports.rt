// The edges of a viewport.
ghost use Rattle.std.specs.Prelude.{◌≡◌, Some};
ghost use Rattle.call_bytes.specs.Reply.{Replied};
ghost use Rattle.call_texts.specs.Carets.{caret_of};
ghost use Rattle.call_texts.specs.Viewports.{edge_of, viewports};

use crate::asks::move_as;
use crate::moves::{caret_of, place};
use motions::Move;
use vertical::Edge;

// A motion to an edge.
fn to(edge: Edge, top: u32, height: u16, offset: u32) -> Option<Move>
    ensures { result ≡ Some (Move.Viewport edge top height offset) }
{
    Some(Move::Viewport {
        edge: edge,
        top: top,
        height: height,
        offset: offset,
    })
}

// The viewport motion that a number stands for: 0 `move_viewport_top`, which takes no height, 1
// `move_viewport_middle`, which takes no offset, 2 `move_viewport_bottom`.
pub fn edge_of(op: u32, top: u32, height: u16, offset: u32) -> Option<Move>
    ensures { result ≡ edge_of op top height offset }
{
    match op {
        0 => to(Edge::Top, top, 0, offset),
        1 => to(Edge::Middle, top, height, 0),
        2 => to(Edge::Bottom, top, height, offset),
        _ => None,
    }
}

// A viewport motion over a text of code points.
pub fn viewport(
    op: u32,
    text: &[u32],
    row: u32,
    col: u32,
    held: u32,
    sticky: u32,
    top: u32,
    height: u16,
    offset: u32,
    out: &mut [u32; 4],
) -> u32
    ensures { Replied
        (viewports op top height offset (caret_of row col held sticky) text.now)
        out.old result out.new }
{
    let k = caret_of(row, col, held, sticky);
    let none = &text[..0];
    let m = edge_of(op, top, height, offset);
    place(move_as(m, k, text, none, none, 0, 1), out)
}
