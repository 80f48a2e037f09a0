// Segments of one row.
ghost use Rattle.std.specs.Prelude.{◌≡◌};
ghost use Rattle.call_bytes.specs.Reply.{Replied, told};
ghost use Rattle.call_rows.specs.Wraps.{told_segment, told_segments, offset_under, segment_of};
ghost use Rattle.call_rows.specs.Wraps.{offsets as offsets_of};
ghost use Rattle.call_rows.specs.Wraps.{segmented, segments_left, Segmented};

use crate::flags::{plain_of, setting_of};
use crate::tabs::told_column;
use call_bytes::{Told, reply};
use row_offsets::Segment;
use row_wrap::{Segments, Wrap};
use widths::Ambiguous;

// The segment, or the number it is refused with.
fn told_segment(m: Segment) -> Told
    ensures { result ≡ told_segment m }
{
    match m {
        Segment::At(n) => {
            if n > 4294967295 {
                return Told::Refused(103);
            }
            Told::Value(n as u32)
        }
        Segment::Refused(f) => Told::Refused(f),
    }
}

// How many segments, or the number they are refused with.
fn told_segments(m: Segments) -> Told
    ensures { result ≡ told_segments m }
{
    match m {
        Segments::Count(n) => Told::Value(n),
        Segments::Refused(f) => Told::Refused(f),
    }
}

// What a number stands for: 0 `char_col_for_visual_offset` of the segment from start to end, 1
// `visual_offset_for_char_col`, which takes no end; 100 where it stands for none.
fn offset_by(op: u32, ambiguous: Ambiguous, row: &[u32], start: u32, end: u32, at: u32) -> Told
    ensures { result ≡ offset_under ambiguous op start end at row.now }
{
    match op {
        0 => told_column(row_offsets::char_col_for_visual_offset(row, start, end, at, ambiguous)),
        1 => told_column(row_offsets::visual_offset_for_char_col(row, start, at, ambiguous)),
        _ => Told::Refused(100),
    }
}

// Cells within a segment of a row of code points; the number may have the flag for wide.
pub fn offsets(op: u32, row: &[u32], start: u32, end: u32, at: u32, out: &mut [u32; 1]) -> u32
    ensures { Replied (offsets_of op start end at row.now) out.old result
        out.new }
{
    let plain = plain_of(op);
    reply(offset_by(plain, setting_of(op), row, start, end, at), out)
}

// `segment_for_col` on numbers.
pub fn segment_for_col(segments: &[u32], col: u32, out: &mut [u32; 1]) -> u32
    ensures { Replied (segment_of col segments.now) out.old result
        out.new }
{
    reply(
        told_segment(row_offsets::segment_for_col(segments, col)),
        out,
    )
}

// `wrap_segments` by the number of a mode: 0 None, 1 Char, 2 Word; 100 for another.
fn segments_by(
    mode: u32,
    ambiguous: Ambiguous,
    row: &[u32],
    width: u16,
    segments: &mut [u32],
) -> Told
    ensures { Segmented ambiguous mode width row.now segments.old result
        segments.new }
{
    match mode {
        0 => told_segments(row_wrap::wrap_segments(row, width, Wrap::None, ambiguous, segments)),
        1 => told_segments(row_wrap::wrap_segments(row, width, Wrap::Char, ambiguous, segments)),
        2 => told_segments(row_wrap::wrap_segments(row, width, Wrap::Word, ambiguous, segments)),
        _ => Told::Refused(100),
    }
}

// `wrap_segments` on code points; the number of the mode may have the flag for wide.
pub fn wrap_segments(
    mode: u32,
    row: &[u32],
    width: u16,
    segments: &mut [u32],
    out: &mut [u32; 1],
) -> u32
    ensures replied { Replied (told (segmented mode width segments.old
        row.now)) out.old result out.new }
    ensures segments_after { segments.new ≡ segments_left mode width segments.old
        row.now }
{
    let plain = plain_of(mode);
    reply(
        segments_by(plain, setting_of(mode), row, width, segments),
        out,
    )
}
