// Where each move leads to.
ghost use Rattle.std.specs.Prelude.{◌≡◌};
ghost use Rattle.positions.specs.Positions.{Accepted};
ghost use Rattle.text_moves.specs.Ways.{gone};

use crate::paragraphs::{paragraph_next, paragraph_prev};
use crate::sections::{section_back, section_on};
use crate::within::{in_row, to_col};
use crate::{Way, rows};
use margins::{first_non_blank, last_non_blank};
use positions::Entry;
use steps::walks::{backspace_back, space_fwd};
use text::offsets::row_len;
use text::{Line, Position};

// The position that a move of a text and position that were accepted leads to. `{` is 123 and `}`
// is 125.
pub fn go(t: &[u32], p: Position, e: Entry, w: Way, count: u32) -> Position
    requires { Accepted t.now p e }
    ensures { result ≡ gone t.now w count p }
{
    let l = Line {
        row: p.row,
        start: e.start,
    };
    let n = (count as usize).max(1);
    match w {
        Way::Left => in_row(p, p.col.saturating_sub(n)),
        Way::RightInLine => in_row(p, to_col(t, l, p.col + n)),
        Way::RightToEnd => in_row(p, (p.col + n).min(row_len(t, l))),
        Way::SpaceFwd => space_fwd(t, p, e, count),
        Way::BackspaceBack => backspace_back(t, p, e, count),
        Way::LineStart => in_row(p, 0),
        Way::FirstNonBlank => in_row(p, first_non_blank(t, l)),
        Way::LineEnd => in_row(p, row_len(t, l).saturating_sub(1)),
        Way::GotoColumn => in_row(p, to_col(t, l, (count as usize).saturating_sub(1))),
        Way::LastNonBlank => in_row(p, last_non_blank(t, l)),
        Way::ParagraphPrev => paragraph_prev(t, p, e, count),
        Way::ParagraphNext => paragraph_next(t, p, e, count),
        Way::SectionBackward => section_back(t, p, e, 123, count),
        Way::SectionForward => section_on(t, p, e, 123, count),
        Way::SectionEndBackward => section_back(t, p, e, 125, count),
        Way::SectionEndForward => section_on(t, p, e, 125, count),
        Way::NextLine => rows::next_line(t, p, e, count),
        Way::PrevLine => rows::prev_line(t, p, e, count),
        Way::ThisLine => rows::this_line(t, p, e, count),
        Way::Top => rows::top(t),
        Way::Bottom => rows::bottom(t, p, e, count),
    }
}
