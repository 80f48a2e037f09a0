// The calls for hosts on the numbers of a case, each compared with the stored answer: the number
// that the call answers, and what it leaves in the places lent to it.
ghost use Rattle.std.specs.Prelude.{◌≡◌};
ghost use Rattle.replay_verdicts.specs.Answers.{compared as compared_of};
ghost use Rattle.replay.specs.Calls.{character_of, keywords_of, columns_of, offsets_of};
ghost use Rattle.replay.specs.Calls.{segment_for_col_of, wrapped_in, wrap_verdict};
ghost use Rattle.replay.specs.Calls.{content_row_count_of, matching_bracket_pos_of, inner_pair_of};
ghost use Rattle.replay.specs.Calls.{motion_of, seek_of, word_of};
ghost use Rattle.replay.specs.Calls.{vertical_verdict, kept_verdict, viewport_verdict};

use replay_rows::Head;
use replay_verdicts::{FILLER, Verdict, compared, compared_two};

// A fact about a character beside the one that is stored.
pub fn character(k: Head, stored: &[u32]) -> Verdict
    ensures { result ≡ compared_of (character_of k) stored.now }
{
    let mut out = [FILLER; 1];
    let n = call_rows::character(k.op, k.a, &mut out);
    compared(n, &out, stored)
}

// Whether a keyword list holds a character, beside the stored answer.
pub fn keywords(k: Head, list: &[u32], stored: &[u32]) -> Verdict
    ensures { result ≡ compared_of (keywords_of k list.now)
        stored.now }
{
    let mut out = [FILLER; 1];
    let n = call_rows::keywords(k.op, list, k.a, &mut out);
    compared(n, &out, stored)
}

// A column with tabs beside the stored one.
pub fn columns(k: Head, row: &[u32], stored: &[u32]) -> Verdict
    ensures { result ≡ compared_of (columns_of k row.now) stored.now }
{
    let mut out = [FILLER; 1];
    let n = call_rows::columns(k.op, row, k.a, k.b, &mut out);
    compared(n, &out, stored)
}

// An offset of a row by its cells beside the stored one.
pub fn offsets(k: Head, row: &[u32], stored: &[u32]) -> Verdict
    ensures { result ≡ compared_of (offsets_of k row.now) stored.now }
{
    let mut out = [FILLER; 1];
    let n = call_rows::offsets(k.op, row, k.a, k.b, k.c, &mut out);
    compared(n, &out, stored)
}

// The segment of a column beside the stored one.
pub fn segment_for_col(k: Head, segments: &[u32], stored: &[u32]) -> Verdict
    ensures { result ≡ compared_of (segment_for_col_of k segments.now)
        stored.now }
{
    let mut out = [FILLER; 1];
    let n = call_rows::segment_for_col(segments, k.a, &mut out);
    compared(n, &out, stored)
}

// The places lent for segments are compared too.
fn wrap_into(mode: u32, row: &[u32], width: u16, segments: &mut [u32], stored: &[u32]) -> Verdict
    ensures { result ≡ compared_of (wrapped_in mode width segments.old
        row.now) stored.now }
{
    let mut out = [FILLER; 1];
    let n = call_rows::wrap_segments(mode, row, width, segments, &mut out);
    compared_two(n, out[0], segments, stored)
}

// The segments of a row beside the stored ones.
pub fn wrap_segments(k: Head, row: &[u32], stored: &[u32]) -> Verdict
    ensures { result ≡ wrap_verdict k row.now stored.now }
{
    let width = k.a;
    let room = k.b as usize;
    if width > 65535 {
        return Verdict::Malformed;
    }
    if room > 64 {
        return Verdict::Malformed;
    }
    let mut segments = [FILLER; 64];
    wrap_into(k.op, row, width as u16, &mut segments[..room], stored)
}

// How many rows with content a text has, beside the stored number.
pub fn content_row_count(text: &[u32], stored: &[u32]) -> Verdict
    ensures { result ≡ compared_of (content_row_count_of text.now)
        stored.now }
{
    let mut out = [FILLER; 1];
    let n = call_texts::content_row_count(text, &mut out);
    compared(n, &out, stored)
}

// The partner of a bracket beside the stored one.
pub fn matching_bracket_pos(k: Head, text: &[u32], stored: &[u32]) -> Verdict
    ensures { result ≡ compared_of (matching_bracket_pos_of k text.now)
        stored.now }
{
    let mut out = [FILLER; 3];
    let n = call_texts::matching_bracket_pos(text, k.a, k.b, &mut out);
    compared(n, &out, stored)
}

// The pair around a place beside the stored one.
pub fn inner_pair(k: Head, text: &[u32], stored: &[u32]) -> Verdict
    ensures { result ≡ compared_of (inner_pair_of k text.now)
        stored.now }
{
    let mut out = [FILLER; 9];
    let n = call_texts::inner_pair(k.op, text, k.a, k.b, &mut out);
    compared(n, &out, stored)
}

// Where a motion lands beside the stored place.
pub fn motion(k: Head, text: &[u32], stored: &[u32]) -> Verdict
    ensures { result ≡ compared_of (motion_of k text.now) stored.now }
{
    let mut out = [FILLER; 4];
    let n = call_texts::motion(k.op, text, k.a, k.b, k.c, k.d, k.e, &mut out);
    compared(n, &out, stored)
}

// Where a search within the row lands beside the stored place.
pub fn seek(k: Head, text: &[u32], stored: &[u32]) -> Verdict
    ensures { result ≡ compared_of (seek_of k text.now) stored.now }
{
    let mut out = [FILLER; 5];
    let n = call_texts::seek(k.op, text, k.a, k.b, k.c, k.d, k.e, &mut out);
    compared(n, &out, stored)
}

// Where a word motion lands beside the stored place.
pub fn word(k: Head, text: &[u32], folds: &[u32], list: &[u32], stored: &[u32]) -> Verdict
    ensures { result ≡ compared_of (word_of k text.now folds.now
        list.now) stored.now }
{
    let mut out = [FILLER; 4];
    let n = call_folds::word(
        k.op, text, folds, list, k.a, k.b, k.c, k.d, k.f, k.e, &mut out,
    );
    compared(n, &out, stored)
}

// A width above 65535 is no width.
pub fn vertical(k: Head, text: &[u32], folds: &[u32], stored: &[u32]) -> Verdict
    ensures { result ≡ vertical_verdict k text.now folds.now
        stored.now }
{
    let width = k.h;
    if width > 65535 {
        return Verdict::Malformed;
    }
    let mut out = [FILLER; 4];
    let n = call_folds::vertical(
        k.op,
        text,
        folds,
        k.a,
        k.b,
        k.c,
        k.d,
        k.g,
        width as u16,
        k.e,
        k.f,
        &mut out,
    );
    compared(n, &out, stored)
}

// The same with the offset within a segment: whether one is kept, and that.
pub fn screen_kept(k: Head, text: &[u32], folds: &[u32], own: &[u32], stored: &[u32]) -> Verdict
    ensures { result ≡ kept_verdict k text.now folds.now
        own.now stored.now }
{
    let width = k.h;
    if width > 65535 {
        return Verdict::Malformed;
    }
    if own.len() != 2 {
        return Verdict::Malformed;
    }
    let kept = own[0];
    let offset = own[1];
    let mut out = [FILLER; 6];
    let n = call_folds::screen_kept(
        k.op,
        text,
        folds,
        k.a,
        k.b,
        k.c,
        k.d,
        kept,
        offset,
        k.g,
        width as u16,
        k.e,
        k.f,
        &mut out,
    );
    compared(n, &out, stored)
}

// Nor is a height.
pub fn viewport(k: Head, text: &[u32], stored: &[u32]) -> Verdict
    ensures { result ≡ viewport_verdict k text.now stored.now }
{
    let height = k.g;
    if height > 65535 {
        return Verdict::Malformed;
    }
    let mut out = [FILLER; 4];
    let n = call_texts::viewport(
        k.op,
        text,
        k.a,
        k.b,
        k.c,
        k.d,
        k.f,
        height as u16,
        k.e,
        &mut out,
    );
    compared(n, &out, stored)
}
