// Every motion by its `Move`: the checks, then the walk.
ghost use Rattle.std.specs.Prelude.{◌≡◌};
ghost use Rattle.text_moves.specs.Ways.{gone};
ghost use Rattle.positions.specs.Positions.{Accepted};
ghost use Rattle.motions.specs.Carets.{here, put, leads, entry_of};
ghost use Rattle.motions.specs.Checks.{Ready};
ghost use Rattle.motions.specs.Going.{walks, goes, moved_by};
ghost use Rattle.motions.specs.Going.{landed as landed_of};

use crate::checks::checks;
use crate::{Caret, Move, Moved, Sought};
use positions::Entry;
use row_wrap::Wrap;
use text::Position;
use text_moves::Way;

impl Sought {
    // The caret that a search leaves: where it found what it sought, or where it was.
    pub fn landed(self) -> Moved
        ensures { result ≡ landed_of self }
    {
        match self {
            Sought::Found(k) => Moved::To(k),
            Sought::Missing(k) => Moved::To(k),
            Sought::Refused(f) => Moved::Refused(f),
        }
    }
}

impl Caret {
    // Where a move on the text alone leads to.
    fn to_place(self, t: &[u32], e: Entry, w: Way, count: u32) -> Caret
        requires { Accepted t.now (here self) e }
        ensures { result ≡ put self (gone t.now w count (here self)) }
    {
        let p = Position {
            row: self.row as usize,
            col: self.col as usize,
        };
        let q = text_moves::go(t, p, e, w, count);
        self.placed(q.row, q.col)
    }

    // A move of a text, caret, folds and tabstop that were accepted, by what the checks have found
    // out. It knows nothing of how that was found. Word motions check their list here (7, 8).
    pub(crate) fn walk(
        self,
        t: &[u32],
        folds: &[u32],
        list: &[u32],
        tabstop: u32,
        e: Entry,
        m: Move,
        count: u32,
    ) -> Sought
        requires { Ready t.now folds.now tabstop e m self }
        ensures { result ≡ walks t.now folds.now list.now
            tabstop m count self }
    {
        match m {
            Move::By(w) => Sought::Found(self.to_place(t, e, w, count)),
            Move::Word { motion, big, stop } => {
                self.by_list(t, folds, list, e, motion, big, stop, count)
            }
            Move::Rows { down, ambiguous } => {
                Sought::Found(self.to_row(
                    t,
                    folds,
                    tabstop,
                    e,
                    Wrap::None,
                    0,
                    down,
                    count,
                    ambiguous,
                ))
            }
            Move::Screen {
                mode,
                width,
                down,
                ambiguous,
            } => {
                Sought::Found(self.to_row(
                    t, folds, tabstop, e, mode, width, down, count, ambiguous,
                ))
            }
            Move::ScreenKept {
                mode,
                width,
                down,
                ambiguous,
            } => {
                Sought::Found(self.to_row_kept(
                    t, folds, tabstop, e, mode, width, down, count, ambiguous,
                ))
            }
            Move::Viewport {
                edge,
                top,
                height,
                offset,
            } => { Sought::Found(self.to_edge(t, e, edge, top, height, offset)) }
            Move::Bracket => self.to_partner(t, e),
            Move::Find {
                x,
                forward,
                till,
                skip,
            } => self.to_char(t, e, x, forward, till, skip),
        }
    }

    // Any motion.
    pub fn go(
        self,
        t: &[u32],
        folds: &[u32],
        list: &[u32],
        tabstop: u32,
        m: Move,
        count: u32,
    ) -> Sought
        ensures { result ≡ goes t.now folds.now list.now tabstop
            m count self }
    {
        let e = self.enter(t);
        go_from(self, t, folds, list, tabstop, e, m, count)
    }

    // The caret after any motion: a search that finds nothing leaves it where it was.
    pub fn moved_by(
        self,
        t: &[u32],
        folds: &[u32],
        list: &[u32],
        tabstop: u32,
        m: Move,
        count: u32,
    ) -> Moved
        ensures { result ≡ moved_by t.now folds.now list.now
            tabstop m count self }
    {
        self.go(t, folds, list, tabstop, m, count).landed()
    }

    // A motion on the text alone.
    pub(crate) fn by(self, t: &[u32], w: Way, count: u32) -> Moved
        ensures { result ≡ leads t.now self (gone t.now w count
            (here self)) }
    {
        let none = &t[..0];
        self.moved_by(t, none, none, 0, Move::By(w), count)
    }
}

// Any motion of a caret, by what the checks of it and of its text have found out, in whatever way.
// A move takes only the inputs that it needs: a wrong list refuses no `j`. A motion that is no
// search has found where it leads to.
pub fn go_from(
    k: Caret,
    t: &[u32],
    folds: &[u32],
    list: &[u32],
    tabstop: u32,
    e: Entry,
    m: Move,
    count: u32,
) -> Sought
    requires { e ≡ entry_of t.now k }
    ensures { result ≡ goes t.now folds.now list.now tabstop m
        count k }
{
    let f = checks(e, folds, tabstop, m);
    if f != 0 {
        return Sought::Refused(f);
    }
    k.walk(t, folds, list, tabstop, e, m, count)
}
