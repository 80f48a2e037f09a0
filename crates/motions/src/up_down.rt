// `j`, `k`, `gj` and `gk`: motions.rs, "Vertical motions". The walks are those of `screen`, which
// are lent the tables of a setting. `j` and `k` are the screen moves of a viewport that doesn't
// wrap. And the screen moves that remember their offset within a segment (document 02, #110). Long
// by its lists of parameters, a line for each.
ghost use Rattle.std.specs.Prelude.{◌≡◌, true, false};
ghost use Rattle.widths.specs.Widths.{width_as};
ghost use Rattle.screen.specs.Keeping.{move_screen_kept};
ghost use Rattle.motions.specs.UpDown.{screen_caret, move_rows, move_screen_rows};
ghost use Rattle.motions.specs.UpDown.{kept_caret, move_screen_rows_kept};
ghost use Rattle.motions.specs.Ready.{RowsReady};

use crate::settings::walk_as;
use crate::{Caret, Move, Moved, caret_at};
use positions::Entry;
use row_wrap::Wrap;
use screen::Kept;
use text::Line;
use widths::Ambiguous;

impl Caret {
    // Where a vertical motion leads to by an offset or by none, of inputs that were accepted.
    fn led(
        self,
        t: &[u32],
        folds: &[u32],
        tabstop: u32,
        e: Entry,
        mode: Wrap,
        width: u16,
        down: bool,
        count: u32,
        offset: Option<u32>,
        ambiguous: Ambiguous,
    ) -> Kept
        requires { RowsReady t.now folds.now tabstop self e }
        ensures { result ≡ move_screen_kept (width_as ambiguous) t.now
            folds.now tabstop mode width down count self.row self.col
            self.sticky offset }
    {
        let l = Line {
            row: self.row as usize,
            start: e.start,
        };
        let s = self.sticky;
        walk_as(
            ambiguous,
            t,
            folds,
            e.rows,
            e.content,
            l,
            self.col as usize,
            s,
            offset,
            down,
            count,
            tabstop,
            mode,
            width,
        )
    }

    // The caret of a vertical motion. It sets the sticky column.
    pub(crate) fn to_row(
        self,
        t: &[u32],
        folds: &[u32],
        tabstop: u32,
        e: Entry,
        mode: Wrap,
        width: u16,
        down: bool,
        count: u32,
        ambiguous: Ambiguous,
    ) -> Caret
        requires { RowsReady t.now folds.now tabstop self e }
        ensures { result ≡ screen_caret ambiguous t.now folds.now tabstop
            mode width down count self }
    {
        let none = None;
        let k = self.led(
            t, folds, tabstop, e, mode, width, down, count, none, ambiguous,
        );
        let p = k.target;
        caret_at(p.row, p.col, Some(p.want))
    }

    // The same with the caret's own offset, which is kept.
    pub(crate) fn to_row_kept(
        self,
        t: &[u32],
        folds: &[u32],
        tabstop: u32,
        e: Entry,
        mode: Wrap,
        width: u16,
        down: bool,
        count: u32,
        ambiguous: Ambiguous,
    ) -> Caret
        requires { RowsReady t.now folds.now tabstop self e }
        ensures { result ≡ kept_caret ambiguous t.now folds.now tabstop mode
            width down count self }
    {
        let own = self.offset;
        let k = self.led(
            t, folds, tabstop, e, mode, width, down, count, own, ambiguous,
        );
        let p = k.target;
        let kept = k.offset;
        Caret::with(p.row as u32, p.col as u32, Some(p.want), kept)
    }

    // `k`: so many visible rows up, or the first that is left.
    pub fn move_up(
        self,
        t: &[u32],
        folds: &[u32],
        count: u32,
        tabstop: u32,
        ambiguous: Ambiguous,
    ) -> Moved
        ensures { result ≡ move_rows ambiguous t.now folds.now tabstop false
            count self }
    {
        self.moved_by(
            t,
            folds,
            &t[..0],
            tabstop,
            Move::Rows {
                down: false,
                ambiguous: ambiguous,
            },
            count,
        )
    }

    // `j`: so many visible rows down, or the last that is left.
    pub fn move_down(
        self,
        t: &[u32],
        folds: &[u32],
        count: u32,
        tabstop: u32,
        ambiguous: Ambiguous,
    ) -> Moved
        ensures { result ≡ move_rows ambiguous t.now folds.now tabstop true
            count self }
    {
        self.moved_by(
            t,
            folds,
            &t[..0],
            tabstop,
            Move::Rows {
                down: true,
                ambiguous: ambiguous,
            },
            count,
        )
    }

    // `gk`: so many segments up; in a viewport that doesn't wrap, or that is 0 cells wide, as `k`.
    pub fn move_screen_up(
        self,
        t: &[u32],
        folds: &[u32],
        mode: Wrap,
        width: u16,
        count: u32,
        tabstop: u32,
        ambiguous: Ambiguous,
    ) -> Moved
        ensures { result ≡ move_screen_rows ambiguous t.now folds.now tabstop
            mode width false count self }
    {
        self.moved_by(
            t,
            folds,
            &t[..0],
            tabstop,
            Move::Screen {
                mode: mode,
                width: width,
                down: false,
                ambiguous: ambiguous,
            },
            count,
        )
    }

    // `gj`: so many segments down, as `gk` goes up.
    pub fn move_screen_down(
        self,
        t: &[u32],
        folds: &[u32],
        mode: Wrap,
        width: u16,
        count: u32,
        tabstop: u32,
        ambiguous: Ambiguous,
    ) -> Moved
        ensures { result ≡ move_screen_rows ambiguous t.now folds.now tabstop
            mode width true count self }
    {
        self.moved_by(
            t,
            folds,
            &t[..0],
            tabstop,
            Move::Screen {
                mode: mode,
                width: width,
                down: true,
                ambiguous: ambiguous,
            },
            count,
        )
    }

    // `gk` that remembers: so many segments up, each at the offset that the caret keeps. While it
    // keeps none a closed fold is left first, as `gk` does, and the offset is the one that the
    // caret then has in its segment; with one the steps start from the caret itself. In a viewport
    // that doesn't wrap, or that is 0 cells wide, as `k`, and the offset is cleared.
    pub fn move_screen_up_kept(
        self,
        t: &[u32],
        folds: &[u32],
        mode: Wrap,
        width: u16,
        count: u32,
        tabstop: u32,
        ambiguous: Ambiguous,
    ) -> Moved
        ensures { result ≡ move_screen_rows_kept ambiguous t.now folds.now
            tabstop mode width false count self }
    {
        self.moved_by(
            t,
            folds,
            &t[..0],
            tabstop,
            Move::ScreenKept {
                mode: mode,
                width: width,
                down: false,
                ambiguous: ambiguous,
            },
            count,
        )
    }

    // `gj` that remembers, as the one up does.
    pub fn move_screen_down_kept(
        self,
        t: &[u32],
        folds: &[u32],
        mode: Wrap,
        width: u16,
        count: u32,
        tabstop: u32,
        ambiguous: Ambiguous,
    ) -> Moved
        ensures { result ≡ move_screen_rows_kept ambiguous t.now folds.now
            tabstop mode width true count self }
    {
        self.moved_by(
            t,
            folds,
            &t[..0],
            tabstop,
            Move::ScreenKept {
                mode: mode,
                width: width,
                down: true,
                ambiguous: ambiguous,
            },
            count,
        )
    }
}
