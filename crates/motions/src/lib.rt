// Carets, and every motion as a method on them: the public surface of motions.rs.
// A motion tests its inputs in the order of document 01's refusal table, walks the text, and
// answers with the new caret. A caret goes in by value, so that the caller's own stands as it did
// where a call is refused. Every motion is a `Move`, and goes by `Caret::go`.

#![tactic(auto)]

ghost use Rattle.std.specs.Prelude.{◌≡◌};
ghost use Rattle.motions.specs.Carets.{caret_with, caret_at, placed, entry_of};
ghost use Rattle.motions.specs.Carets.{cleared as cleared_of};
ghost use Rattle.motions.specs.Ready.{CaretFits};

use positions::Entry;
use row_wrap::Wrap;
use text::Position;
use text_moves::Way;
use vertical::Edge;
use widths::Ambiguous;
use word_rounds::Motion;

mod checks;
mod finds;
mod going;
mod rows;
mod settings;
mod up_down;
mod viewport_moves;
mod within;
mod word_moves;

pub use checks::taken;
pub use going::go_from;

// A row, a column in it, which may be the row's character count, the sticky column, and the offset
// within a segment that the screen moves which remember keep. Every other motion that is not
// refused leaves no offset, moved or not.
#[derive(Clone, Copy)]
pub struct Caret {
    pub row: u32,
    pub col: u32,
    pub sticky: Option<u32>,
    pub offset: Option<u32>,
}

// Where a motion has led to, or the number that the call is refused with.
#[derive(Clone, Copy)]
pub enum Moved {
    To(Caret),
    Refused(u32),
}

// What a search answers: found, and the caret then; missing, and the caret where it was; or the
// number that the call is refused with. The Rust's true and false are found and missing.
#[derive(Clone, Copy)]
pub enum Sought {
    Found(Caret),
    Missing(Caret),
    Refused(u32),
}

// Every motion of motions.rs, and the screen moves that remember, with what each takes beside text,
// caret and count.
#[derive(Clone, Copy)]
pub enum Move {
    // On the text alone.
    By(Way),
    // By words; `big` where blanks alone divide them, `stop` for `e` that may stay in the first
    // round. It takes a keyword list and folds, but for `EndBack`, which takes no folds.
    Word {
        motion: Motion,
        big: bool,
        stop: bool,
    },
    // By visible rows, and by segments. They take folds and a tabstop, and a setting for widths.
    Rows {
        down: bool,
        ambiguous: Ambiguous,
    },
    Screen {
        mode: Wrap,
        width: u16,
        down: bool,
        ambiguous: Ambiguous,
    },
    // By segments with the caret's offset, which is kept.
    ScreenKept {
        mode: Wrap,
        width: u16,
        down: bool,
        ambiguous: Ambiguous,
    },
    // To an edge of a viewport.
    Viewport {
        edge: Edge,
        top: u32,
        height: u16,
        offset: u32,
    },
    // `%`, and `f`, `F`, `t`, `T`, which seek the character `x`.
    Bracket,
    Find {
        x: u32,
        forward: bool,
        till: bool,
        skip: bool,
    },
}

// Every caret that a motion answers with is made here, but for those of the screen moves that
// remember.
pub(crate) fn caret_at(row: usize, col: usize, sticky: Option<u32>) -> Caret
    requires { CaretFits row col }
    ensures { result ≡ caret_at row col sticky }
{
    Caret::at(row as u32, col as u32, sticky)
}

// The caret at another row and column, for motions outside this crate: its sticky column stays.
pub fn placed(k: Caret, row: usize, col: usize) -> Caret
    requires { CaretFits row col }
    ensures { result ≡ placed k row col }
{
    k.placed(row, col)
}

impl Caret {
    // A caret by its parts.
    pub fn with(row: u32, col: u32, sticky: Option<u32>, offset: Option<u32>) -> Caret
        ensures { result ≡ caret_with row col sticky offset }
    {
        Caret {
            row: row,
            col: col,
            sticky: sticky,
            offset: offset,
        }
    }

    // A caret that keeps no offset within a segment.
    pub fn at(row: u32, col: u32, sticky: Option<u32>) -> Caret
        ensures { result ≡ caret_at row col sticky }
    {
        Caret::with(row, col, sticky, None)
    }

    // The checks that every motion begins with: the text (1, 2, 3), then the caret (4).
    pub fn enter(self, t: &[u32]) -> Entry
        ensures { result ≡ entry_of t.now self }
    {
        let p = Position {
            row: self.row as usize,
            col: self.col as usize,
        };
        positions::enter(t, p)
    }

    // The caret at another row and column.
    pub(crate) fn placed(self, row: usize, col: usize) -> Caret
        requires { CaretFits row col }
        ensures { result ≡ placed self row col }
    {
        let s = self.sticky;
        caret_at(row, col, s)
    }

    // The caret where a search that finds nothing leaves it.
    pub(crate) fn cleared(self) -> Caret
        ensures { result ≡ cleared_of self }
    {
        let s = self.sticky;
        Caret::at(self.row, self.col, s)
    }
}
