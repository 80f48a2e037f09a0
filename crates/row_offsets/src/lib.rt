// Where a column or a cell stands in a segment of a row, and the segment of a column. From
// `wrap.rs`. The segments are the caller's: any numbers.

#![tactic(auto)]

ghost use Rattle.std.specs.Prelude.{◌≡◌, ◌≤◌, min, ◌&&◌, leb, ltb, length};
ghost use Rattle.chars.specs.Width.{Measures, width_with};
ghost use Rattle.widths.specs.Widths.{width_as};
ghost use Rattle.row_cells.specs.Offsets.{part, char_at_offset, segment_index};
ghost use Rattle.row_offsets.specs.Calls.{char_col_for_visual_offset, visual_offset_for_char_col};
ghost use Rattle.row_offsets.specs.Calls.{segment_for_col, offset_by, offset_as, RowLent};

use chars::Measure;
use row_check::Column;
use widths::Ambiguous;

// The index of a segment, or the number that the call is refused for.
#[derive(Clone, Copy)]
pub enum Segment {
    At(usize),
    Refused(u32),
}

// The characters of the row from `start` on and before `end`, as far as it has them.
fn part_of(row: &[u32], start: u32, end: u32) -> &[u32]
    ensures { result.now ≡ part row.now start end }
{
    let to = (end as usize).min(row.len());
    let from = (start as usize).min(to);
    &row[from..to]
}

// The character of a segment that holds a cell, by the tables that are lent.
fn char_in(by: Measure<'_>, row: &[u32], start: u32, end: u32, offset: u32) -> u32
    requires { Measures by }
    ensures { result ≡ char_at_offset (width_with by.entry)
        row.now start end offset }
{
    let inside = part_of(row, start, end);
    let k = row_cells::fitting(by, inside, offset);
    if k < inside.len() {
        return start + k as u32;
    }
    end
}

// Which offset is asked for: the character of a cell, or the cells before a column.
#[derive(Clone, Copy)]
enum Ask {
    Char,
    Cells,
}

// What is asked for of the segment from `start` to `end`, by the tables that are lent. The cells
// are those before column `n`, whatever the end.
fn offset_in(by: Measure<'_>, ask: Ask, row: &[u32], start: u32, end: u32, n: u32) -> u32
    requires { RowLent by row.now }
    ensures { result ≡ offset_by (width_with by.entry) ask
        row.now start end n }
{
    match ask {
        Ask::Char => char_in(by, row, start, end, n),
        Ask::Cells => {
            let inside = part_of(row, start, n);
            row_cells::cells_in(by, inside)
        }
    }
}

// What is asked for, or what the row is refused for.
fn offset_of(ask: Ask, row: &[u32], start: u32, end: u32, n: u32, ambiguous: Ambiguous) -> Column
    ensures { result ≡ offset_as ambiguous ask row.now start end n }
{
    let f = row_check::row_refusal(row);
    if f != 0 {
        return Column::Refused(f);
    }
    Column::At(widths::lend(ambiguous, |by| { offset_in(by, ask, row, start, end, n) }))
}

// The character of the segment from `start` to `end` whose cells hold `offset`, counted in cells
// from the segment's start; `end`, even past the row's end, where no character does.
pub fn char_col_for_visual_offset(
    row: &[u32],
    start: u32,
    end: u32,
    offset: u32,
    ambiguous: Ambiguous,
) -> Column
    ensures { result ≡ char_col_for_visual_offset ambiguous row.now start end offset }
{
    offset_of(Ask::Char, row, start, end, offset, ambiguous)
}

// The cells of the characters before column `col` in a segment that begins at `start`; 0 for a
// column before the segment.
pub fn visual_offset_for_char_col(row: &[u32], start: u32, col: u32, ambiguous: Ambiguous) -> Column
    ensures { result ≡ visual_offset_for_char_col ambiguous row.now start col }
{
    offset_of(Ask::Cells, row, start, 0, col, ambiguous)
}

// Whether a segment from start to end holds the column.
fn holds(start: u32, end: u32, col: u32) -> bool
    ensures { result ≡ (leb start col && ltb col end) }
{
    if start > col {
        return false;
    }
    col < end
}

// Which segment holds the column, the last one where none does.
fn index_of(segments: &[u32], col: u32) -> usize
    ensures { result ≡ segment_index segments.now col }
{
    let n = segments.len() / 2;
    for k in 0..n {
        if holds(segments[2 * k], segments[2 * k + 1], col) {
            return k;
        }
    }
    if n == 0 {
        return 0;
    }
    n - 1
}

// The index of the first segment, a pair start, end, that holds column `col`; where none does, the
// last index, so that the column after the last character belongs to the last segment. 0 where
// there is no segment.
pub fn segment_for_col(segments: &[u32], col: u32) -> Segment
    ensures { result ≡ segment_for_col segments.now col }
{
    if segments.len() % 2 != 0 {
        return Segment::Refused(10);
    }
    Segment::At(index_of(segments, col))
}
