// Where a row is broken. A walk over segments takes the row's rest, asks for the first segment of
// it, and goes on behind that. By words a character can be walked twice and no more: what lies
// between a break and the end of what fitted has no white space and fits the next segment, which
// therefore reaches past it (`proofs/Twice.antt`).
ghost use Rattle.std.specs.Prelude.{◌≡◌, ◌*◌, ◌≤◌, length};
ghost use Rattle.chars.specs.Width.{width_with};
ghost use Rattle.widths.specs.Widths.{width_as};
ghost use Rattle.row_wrap.specs.Modes.{is_whole};
ghost use Rattle.row_wrap.specs.Calls.{Counted, Written, Broken, Whole, Wraps};
ghost use Rattle.row_wrap.specs.Calls.{RowLent, SegmentsRoom};
ghost use Rattle.row_segment.specs.Lent.{Tables};

use crate::{Segments, Wrap};
use chars::Measure;
use widths::Ambiguous;

// How many segments the row has.
fn count_segments(by: Measure<'_>, white: &[u32], row: &[u32], width: u32, word: bool) -> usize
    requires { Tables by white.now }
    ensures { Counted (width_with by.entry) word width
        row.now result }
{
    let mut n: usize = 0;
    let mut start: usize = 0;
    // A `while`: the step differs from turn to turn.
    while start < row.len() {
        let rest = &row[start..];
        start += row_segment::first_segment(by, white, rest, width, word);
        n += 1;
    }
    n
}

// Writes the segments to the front of the room.
fn write_segments(
    by: Measure<'_>,
    white: &[u32],
    row: &[u32],
    width: u32,
    word: bool,
    out: &mut [u32],
)
    requires { SegmentsRoom by white.now row.now width word
        out.old }
    ensures { Written (width_with by.entry) word width
        row.now out.old out.new }
{
    let mut at: usize = 0;
    let mut start: usize = 0;
    // A `while`: the step differs from turn to turn.
    while start < row.len() {
        let rest = &row[start..];
        let end = start + row_segment::first_segment(by, white, rest, width, word);
        row_segment::put_segment(out, at, start, end);
        at += 2;
        start = end;
    }
}

// The segments of a row that is broken: counted first, so that nothing is written where the room is
// too small.
fn fit_segments(
    by: Measure<'_>,
    white: &[u32],
    row: &[u32],
    width: u32,
    word: bool,
    out: &mut [u32],
) -> Segments
    requires { RowLent by white.now row.now }
    ensures { Broken (width_with by.entry) word width
        row.now out.old result out.new }
{
    let n = count_segments(by, white, row, width, word);
    if out.len() < 2 * n {
        return Segments::Refused(9);
    }
    write_segments(by, white, row, width, word, out);
    Segments::Count(n as u32)
}

// The segments of a row under the setting of the widths. No closure for `widths::lend`, since of one
// that writes to `out` a proof knows nothing (tried).
fn broken(row: &[u32], width: u32, word: bool, ambiguous: Ambiguous, out: &mut [u32]) -> Segments
    requires { length row.now ≤ 1048576 }
    ensures { Broken (width_as ambiguous) word width row.now out.old result
        out.new }
{
    match ambiguous {
        Ambiguous::Narrow => {
            let by = Measure {
                zeros: &chars::ZERO_WIDTH,
                doubles: &chars::DOUBLE_WIDTH,
            };
            fit_segments(by, &chars::WHITE, row, width, word, out)
        }
        Ambiguous::Wide => {
            let by = Measure {
                zeros: &chars::ZERO_WIDTH,
                doubles: &widths::WIDE_DOUBLES,
            };
            fit_segments(by, &chars::WHITE, row, width, word, out)
        }
    }
}

// The one segment of a row that is not broken.
fn whole(row: &[u32], out: &mut [u32]) -> Segments
    requires { length row.now ≤ 1048576 }
    ensures { Whole row.now out.old result out.new }
{
    if out.len() < 2 {
        return Segments::Refused(9);
    }
    row_segment::put_segment(out, 0, 0, row.len());
    Segments::Count(1)
}

// Whether a row of `count` characters has one segment whatever its cells.
fn is_whole(mode: Wrap, width: u32, count: usize) -> bool
    ensures { result ≡ is_whole mode width count }
{
    mode == Wrap::None || width == 0 || count == 0
}

// Breaks a row into segments of at most `width` cells and writes them to the front of the room, as
// pairs start, end; answers how many there are. Mode None, width 0 and an empty row give the one
// segment from 0 to the row's count. Refused, it writes nothing.
pub fn wrap_segments(
    row: &[u32],
    width: u16,
    mode: Wrap,
    ambiguous: Ambiguous,
    out: &mut [u32],
) -> Segments
    ensures { Wraps ambiguous mode width row.now out.old result
        out.new }
{
    let f = row_check::row_refusal(row);
    if f != 0 {
        return Segments::Refused(f);
    }
    let cells = width as u32;
    if is_whole(mode, cells, row.len()) {
        return whole(row, out);
    }
    broken(row, cells, mode == Wrap::Word, ambiguous, out)
}
