// By paragraphs: the moves of `{` and `}`.
ghost use Rattle.std.specs.Prelude.{◌≡◌, Some};
ghost use Rattle.positions.specs.Positions.{Accepted};
ghost use Rattle.text_moves.specs.Paragraphs.{down_at, paragraph_prev, paragraph_next, DownTo};

use positions::Entry;
use row_walks::paragraphs::find_paragraph;
use text::{Line, Position};

// Back over so many paragraphs, to the empty row before them or the first place of the text.
pub fn paragraph_prev(t: &[u32], p: Position, e: Entry, count: u32) -> Position
    requires { Accepted t.now p e }
    ensures { result ≡ paragraph_prev t.now count p }
{
    let from = Line {
        row: p.row,
        start: e.start,
    };
    let last = e.content - 1;
    match find_paragraph(t, false, last, from, (count as usize).max(1)) {
        Some(l) => Position { row: l.row, col: 0 },
        None => p,
    }
}

// The position in a row that a paragraph move leads down to, where `last` is the last row with
// content.
fn down_at(t: &[u32], p: Position, last: usize, l: Line) -> Position
    requires { DownTo t.now last l }
    ensures { result ≡ down_at t.now p (Some l) }
{
    let row = l.row;
    if row == last {
        let n = text::offsets::row_len(t, l);
        return Position {
            row: row,
            col: n.saturating_sub(1),
        };
    }
    Position { row: row, col: 0 }
}

// On over so many paragraphs, to the empty row behind them or the last place of the text.
pub fn paragraph_next(t: &[u32], p: Position, e: Entry, count: u32) -> Position
    requires { Accepted t.now p e }
    ensures { result ≡ paragraph_next t.now count p }
{
    let from = Line {
        row: p.row,
        start: e.start,
    };
    let last = e.content - 1;
    match find_paragraph(t, true, last, from, (count as usize).max(1)) {
        Some(l) => down_at(t, p, last, l),
        None => p,
    }
}
