// Which inputs each move takes, and the checks of those after text and caret: document 01's refusal
// table, "each only where the call takes that input".
ghost use Rattle.std.specs.Prelude.{◌≡◌};
ghost use Rattle.motions.specs.WordMoves.{Taken};
ghost use Rattle.motions.specs.Checks.{or_stop, checked};

use crate::Move;
use positions::{Entry, or_folds, or_sought};
use word_rounds::Motion;

// How many of the folds' numbers a word motion takes: all of them, but none for `ge`.
pub fn taken(motion: Motion, folds: &[u32]) -> usize
    ensures { Taken motion folds.now result }
{
    match motion {
        Motion::Fwd => folds.len(),
        Motion::Back => folds.len(),
        Motion::End => folds.len(),
        Motion::EndBack => 0,
    }
}

// The refusal with a tabstop too: 6 above 1,000.
fn or_stop(f: u32, tabstop: u32) -> u32
    ensures { result ≡ or_stop f tabstop }
{
    if f != 0 {
        return f;
    }
    if tabstop > 1000 {
        return 6;
    }
    0
}

// The refusal of a call, but for the list of a word motion, from what the checks of its text and
// caret have found out.
pub(crate) fn checks(e: Entry, folds: &[u32], tabstop: u32, m: Move) -> u32
    ensures { result ≡ checked e folds.now tabstop m }
{
    match m {
        Move::By(_) => e.refusal,
        Move::Word {
            motion,
            big: _,
            stop: _,
        } => {
            let n = taken(motion, folds);
            or_folds(e, &folds[..n])
        }
        Move::Rows {
            down: _,
            ambiguous: _,
        } => { or_stop(or_folds(e, folds), tabstop) }
        Move::Screen {
            mode: _,
            width: _,
            down: _,
            ambiguous: _,
        } => { or_stop(or_folds(e, folds), tabstop) }
        Move::ScreenKept {
            mode: _,
            width: _,
            down: _,
            ambiguous: _,
        } => { or_stop(or_folds(e, folds), tabstop) }
        Move::Viewport {
            edge: _,
            top: _,
            height: _,
            offset: _,
        } => e.refusal,
        Move::Bracket => e.refusal,
        Move::Find {
            x,
            forward: _,
            till: _,
            skip: _,
        } => or_sought(e, x),
    }
}
