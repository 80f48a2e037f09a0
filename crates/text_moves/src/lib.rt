// The moves on a text alone, from a position to another: within its row, by characters, and to
// other rows. There is no caret here: a move takes a text and a position that were accepted. From
// motions.rs; the walks are those of `steps` and `row_walks`.

#![tactic(auto)]

mod paragraphs;
pub mod rows;
mod sections;
mod ways;
mod within;

pub use ways::go;

// The moves, in the order of motions.rs: within a row and by characters, then to other rows.
#[derive(Clone, Copy)]
pub enum Way {
    Left,
    RightInLine,
    RightToEnd,
    SpaceFwd,
    BackspaceBack,
    LineStart,
    FirstNonBlank,
    LineEnd,
    GotoColumn,
    LastNonBlank,
    ParagraphPrev,
    ParagraphNext,
    SectionBackward,
    SectionForward,
    SectionEndBackward,
    SectionEndForward,
    NextLine,
    PrevLine,
    ThisLine,
    Top,
    Bottom,
}
