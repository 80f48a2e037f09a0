// `H`, `M` and `L`: motions.rs, "Viewport-relative motions". The rows are those of `vertical`. A
// viewport is its top row and its height; its width and wrap mode play no part here.
ghost use Rattle.std.specs.Prelude.{◌≡◌};
ghost use Rattle.positions.specs.Positions.{Accepted};
ghost use Rattle.motions.specs.Carets.{here};
ghost use Rattle.motions.specs.ViewportMoves.{viewport_caret, move_viewport};

use crate::{Caret, Move, Moved};
use positions::Entry;
use vertical::Edge;

impl Caret {
    // Where a viewport motion leads to, of a text and caret that were accepted.
    pub(crate) fn to_edge(
        self,
        t: &[u32],
        e: Entry,
        edge: Edge,
        top: u32,
        height: u16,
        offset: u32,
    ) -> Caret
        requires { Accepted t.now (here self) e }
        ensures { result ≡ viewport_caret t.now edge top height offset self }
    {
        let l = vertical::viewport::viewport_line(t, e.rows, e.content, edge, top, height, offset);
        let q = text_moves::rows::at_line(t, l);
        self.placed(q.row, q.col)
    }

    // The motion to an edge of a viewport.
    fn by_edge(self, t: &[u32], edge: Edge, top: u32, height: u16, offset: u32) -> Moved
        ensures { result ≡ move_viewport t.now edge top height offset self }
    {
        let none = &t[..0];
        let m = Move::Viewport {
            edge: edge,
            top: top,
            height: height,
            offset: offset,
        };
        self.moved_by(t, none, none, 0, m, 1)
    }

    // `H`: so many rows below the viewport's first, or the last row with content.
    pub fn move_viewport_top(self, t: &[u32], top: u32, offset: u32) -> Moved
        ensures { result ≡ move_viewport t.now Edge.Top top 0 offset self }
    {
        self.by_edge(t, Edge::Top, top, 0, offset)
    }

    // `M`: the row in the middle between the viewport's first row and its last with content.
    pub fn move_viewport_middle(self, t: &[u32], top: u32, height: u16) -> Moved
        ensures { result ≡ move_viewport t.now Edge.Middle top height 0 self }
    {
        self.by_edge(t, Edge::Middle, top, height, 0)
    }

    // `L`: so many rows above the viewport's last with content, but not above its first.
    pub fn move_viewport_bottom(self, t: &[u32], top: u32, height: u16, offset: u32) -> Moved
        ensures { result ≡ move_viewport t.now Edge.Bottom top height offset self }
    {
        self.by_edge(t, Edge::Bottom, top, height, offset)
    }
}
