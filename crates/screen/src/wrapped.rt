// `gj` and `gk`: the target of `move_screen_vertical` of motions.rs, by the tables of widths that
// are lent. The text, the place, the folds and the tabstop were accepted. A move begins with the
// offset within a segment that is at hand, or with none as the Rust's do, and answers with the one
// that it kept.
ghost use Rattle.std.specs.Prelude.{◌≡◌};
ghost use Rattle.chars.specs.Width.{width_with};
ghost use Rattle.screen_segments.specs.Parts.{lay_of};
ghost use Rattle.screen.specs.Ready.{Moving, MovingBroken};
ghost use Rattle.screen.specs.Keeping.{screen_kept, move_screen_kept};
ghost use Rattle.screen.specs.Keeping.{unkept as unkept_of};

use crate::{Kept, out_of_folds, walks};
use chars::Measure;
use row_wrap::Wrap;
use text::Line;
use vertical::{Target, moves};

// The target where rows are broken, by words or by characters, and the offset that was kept.
fn move_broken(
    by: Measure<'_>,
    t: &[u32],
    folds: &[u32],
    rows: usize,
    content: usize,
    l: Line,
    col: usize,
    sticky: Option<u32>,
    offset: Option<u32>,
    down: bool,
    count: u32,
    tabstop: u32,
    width: u32,
    word: bool,
) -> Kept
    requires { MovingBroken by t.now folds.now rows content l col
        tabstop width }
    ensures { result ≡ screen_kept (width_with by.entry)
        t.now folds.now tabstop
        (lay_of (width_with by.entry) word width) down count
        l.row col sticky offset }
{
    let want = moves::wanted(by, t, folds, l, col, sticky, tabstop);
    let j = out_of_folds::start(t, folds, rows, content, down, l, col, offset);
    let m = Line {
        row: j.row,
        start: j.start,
    };
    let n = (count as usize).max(1);
    let g = walks::screen_from(
        by,
        &chars::WHITE,
        t,
        folds,
        rows,
        width,
        word,
        down,
        m,
        j.col,
        offset,
        n,
    );
    let to = Target {
        row: g.place.row,
        col: g.place.col,
        want: want,
    };
    Kept {
        target: to,
        offset: Some(g.offset as u32),
    }
}

// A target of `j` or `k`: no offset is kept.
fn unkept(to: Target) -> Kept
    ensures { result ≡ unkept_of to }
{
    Kept {
        target: to,
        offset: None,
    }
}

// So many segments down or up, count 0 as 1, by the offset at hand; with mode None or width 0 as
// `j` and `k`, and then none is kept.
pub fn move_screen(
    by: Measure<'_>,
    t: &[u32],
    folds: &[u32],
    rows: usize,
    content: usize,
    l: Line,
    col: usize,
    sticky: Option<u32>,
    offset: Option<u32>,
    down: bool,
    count: u32,
    tabstop: u32,
    mode: Wrap,
    width: u16,
) -> Kept
    requires { Moving by t.now folds.now rows content l col
        tabstop }
    ensures { result ≡ move_screen_kept (width_with by.entry)
        t.now folds.now tabstop mode width down count l.row col sticky
        offset }
{
    let cells = width as u32;
    if cells == 0 {
        return unkept(moves::move_rows(by, t, folds, rows, l, col, sticky, down, count, tabstop));
    }
    match mode {
        Wrap::None => unkept(moves::move_rows(
            by, t, folds, rows, l, col, sticky, down, count, tabstop,
        )),
        Wrap::Char => move_broken(
            by, t, folds, rows, content, l, col, sticky, offset, down, count, tabstop, cells, false,
        ),
        Wrap::Word => move_broken(
            by, t, folds, rows, content, l, col, sticky, offset, down, count, tabstop, cells, true,
        ),
    }
}
