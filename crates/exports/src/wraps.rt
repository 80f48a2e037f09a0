// Segments of one row.
ghost use Rattle.std.specs.Prelude.{◌≡◌};
ghost use Rattle.call_points.specs.Points.{points};
ghost use Rattle.call_bytes.specs.Reply.{Replied, Answered, told, unfit_one, fitting};
ghost use Rattle.call_rows.specs.Wraps.{offsets, segment_of, segmented, segments_left};

use call_bytes::fill;

// Cells within a segment of a row of code points.
#[unsafe(no_mangle)]
pub extern "C" fn tsivareza_offsets_u32(
    op: u32,
    row: &[u32],
    start: u32,
    end: u32,
    at: u32,
    out: &mut [u32; 1],
) -> u32
    ensures { Replied (offsets op start end at row.now) out.old result
        out.new }
{
    call_rows::offsets(op, row, start, end, at, out)
}

// Cells within a segment of a row of bytes.
#[unsafe(no_mangle)]
pub extern "C" fn tsivareza_offsets(
    op: u32,
    row: &[u8],
    room: &mut [u32],
    start: u32,
    end: u32,
    at: u32,
    out: &mut [u32; 1],
) -> u32
    ensures { Answered row.now room.old out.old (offsets op
        start end at (points row.now)) result room.new out.new }
{
    let f = fill(row, room);
    if f != 0 {
        return f;
    }
    let n = row.len() / 4;
    call_rows::offsets(op, &room[..n], start, end, at, out)
}

// `segment_for_col` on numbers.
#[unsafe(no_mangle)]
pub extern "C" fn tsivareza_segment_for_col_u32(
    segments: &[u32],
    col: u32,
    out: &mut [u32; 1],
) -> u32
    ensures { Replied (segment_of col segments.now) out.old result
        out.new }
{
    call_rows::segment_for_col(segments, col, out)
}

// `segment_for_col` on bytes, four to a number.
#[unsafe(no_mangle)]
pub extern "C" fn tsivareza_segment_for_col(
    segments: &[u8],
    room: &mut [u32],
    col: u32,
    out: &mut [u32; 1],
) -> u32
    ensures { Answered segments.now room.old out.old
        (segment_of col (points segments.now)) result room.new out.new }
{
    let f = fill(segments, room);
    if f != 0 {
        return f;
    }
    let n = segments.len() / 4;
    call_rows::segment_for_col(&room[..n], col, out)
}

// `wrap_segments` on code points.
#[unsafe(no_mangle)]
pub extern "C" fn tsivareza_wrap_segments_u32(
    mode: u32,
    row: &[u32],
    width: u16,
    segments: &mut [u32],
    out: &mut [u32; 1],
) -> u32
    ensures replied { Replied (told (segmented mode width segments.old
        row.now)) out.old result out.new }
    ensures segments_after { segments.new ≡ segments_left mode width segments.old
        row.now }
{
    call_rows::wrap_segments(mode, row, width, segments, out)
}

// `wrap_segments` on bytes.
#[unsafe(no_mangle)]
pub extern "C" fn tsivareza_wrap_segments(
    mode: u32,
    row: &[u8],
    room: &mut [u32],
    width: u16,
    segments: &mut [u32],
    out: &mut [u32; 1],
) -> u32
    ensures answered { Answered row.now room.old out.old (told
        (segmented mode width segments.old (points row.now))) result
        room.new out.new }
    ensures segments_after { segments.new ≡ fitting (unfit_one row.now
        room.old) (segments_left mode width segments.old
        (points row.now)) segments.old }
{
    let f = fill(row, room);
    if f != 0 {
        return f;
    }
    let n = row.len() / 4;
    call_rows::wrap_segments(mode, &room[..n], width, segments, out)
}
