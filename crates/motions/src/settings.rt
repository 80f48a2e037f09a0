// The walks of the vertical motions by the setting for widths: each is lent the setting's tables. A
// table is built where a function names it, so that each setting has a function of its own.
ghost use Rattle.std.specs.Prelude.{◌≡◌};
ghost use Rattle.widths.specs.Widths.{width_as};
ghost use Rattle.screen.specs.Keeping.{move_screen_kept};
ghost use Rattle.motions.specs.Ready.{LineReady};

use row_wrap::Wrap;
use screen::Kept;
use text::Line;
use widths::Ambiguous;

// `screen::wrapped::move_screen` by the tables of a setting.
pub(crate) fn walk_as(
    ambiguous: Ambiguous,
    t: &[u32],
    folds: &[u32],
    rows: usize,
    content: usize,
    l: Line,
    col: usize,
    sticky: Option<u32>,
    offset: Option<u32>,
    down: bool,
    count: u32,
    tabstop: u32,
    mode: Wrap,
    width: u16,
) -> Kept
    requires { LineReady t.now folds.now rows content l col tabstop }
    ensures { result ≡ move_screen_kept (width_as ambiguous) t.now folds.now
        tabstop mode width down count l.row col sticky offset }
{
    widths::lend(ambiguous, |by| {
        screen::wrapped::move_screen(
            by, t, folds, rows, content, l, col, sticky, offset, down, count, tabstop, mode, width,
        )
    })
}
