// Column 0 of rows that begin with a mark: the moves of `[[`, `]]`, `[]` and `][`.
ghost use Rattle.std.specs.Prelude.{◌≡◌};
ghost use Rattle.text_moves.specs.Sections.{section_back, section_on, Marked};

use positions::Entry;
use row_walks::sections::{section_down, section_up};
use text::{Line, Position};

// Back to the start of the row that begins with x, so many times, or to the first row.
pub fn section_back(t: &[u32], p: Position, e: Entry, x: u32, count: u32) -> Position
    requires { Marked t.now p e x }
    ensures { result ≡ section_back t.now x count p }
{
    let l = Line {
        row: p.row,
        start: e.start,
    };
    let row = section_up(t, l, x, (count as usize).max(1));
    Position { row: row, col: 0 }
}

// On to the start of the row that begins with x, so many times, or to the last row.
pub fn section_on(t: &[u32], p: Position, e: Entry, x: u32, count: u32) -> Position
    requires { Marked t.now p e x }
    ensures { result ≡ section_on t.now x count p }
{
    let l = Line {
        row: p.row,
        start: e.start,
    };
    let row = section_down(t, l, e.content - 1, x, (count as usize).max(1));
    Position { row: row, col: 0 }
}
