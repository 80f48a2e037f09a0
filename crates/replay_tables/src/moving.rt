// Motions with a table, which is lent with the number of rows with content.
ghost use Rattle.std.specs.Prelude.{◌≡◌};
ghost use Rattle.replay_verdicts.specs.Answers.{compared as compared_of};
ghost use Rattle.replay_tables.specs.Motions.{motion_of, seek_of, word_of};
ghost use Rattle.replay_tables.specs.Motions.{vertical_verdict, viewport_verdict, kept_verdict};

use replay_rows::Head;
use replay_verdicts::{FILLER, Verdict, compared};

// A motion by the count e.
pub(crate) fn motion(
    op: u32,
    k: Head,
    text: &[u32],
    content: u32,
    starts: &[u32],
    stored: &[u32],
) -> Verdict
    ensures { result ≡ compared_of (motion_of op k text.now content
        starts.now) stored.now }
{
    let mut out = [FILLER; 4];
    let n = call_motion_rows::motion_rows(
        op, text, starts, content, k.a, k.b, k.c, k.d, k.e, &mut out,
    );
    compared(n, &out, stored)
}

// A search for the character e.
pub(crate) fn seek(
    op: u32,
    k: Head,
    text: &[u32],
    content: u32,
    starts: &[u32],
    stored: &[u32],
) -> Verdict
    ensures { result ≡ compared_of (seek_of op k text.now content
        starts.now) stored.now }
{
    let mut out = [FILLER; 5];
    let n = call_motion_rows::seek_rows(
        op, text, starts, content, k.a, k.b, k.c, k.d, k.e, &mut out,
    );
    compared(n, &out, stored)
}

// A word motion by the count e, of big words where f is not 0.
pub(crate) fn word(
    op: u32,
    k: Head,
    text: &[u32],
    folds: &[u32],
    content: u32,
    starts: &[u32],
    list: &[u32],
    stored: &[u32],
) -> Verdict
    ensures { result ≡ compared_of (word_of op k text.now folds.now
        content starts.now list.now) stored.now }
{
    let mut out = [FILLER; 4];
    let n = call_motion_rows::word_rows(
        op, text, starts, content, folds, list, k.a, k.b, k.c, k.d, k.f, k.e, &mut out,
    );
    compared(n, &out, stored)
}

// Up, down and the screen by the count e, tabstop f, mode g and a width h below 65536.
pub(crate) fn vertical(
    op: u32,
    k: Head,
    text: &[u32],
    folds: &[u32],
    content: u32,
    starts: &[u32],
    stored: &[u32],
) -> Verdict
    ensures { result ≡ vertical_verdict op k text.now folds.now content
        starts.now stored.now }
{
    let width = k.h;
    if width > 65535 {
        return Verdict::Malformed;
    }
    let mut out = [FILLER; 4];
    let n = call_motion_rows::vertical_rows(
        op,
        text,
        starts,
        content,
        folds,
        k.a,
        k.b,
        k.c,
        k.d,
        k.g,
        width as u16,
        k.e,
        k.f,
        &mut out,
    );
    compared(n, &out, stored)
}

// An edge of the viewport with offset e, top row f and a height g below 65536.
pub(crate) fn viewport(
    op: u32,
    k: Head,
    text: &[u32],
    content: u32,
    starts: &[u32],
    stored: &[u32],
) -> Verdict
    ensures { result ≡ viewport_verdict op k text.now content starts.now
        stored.now }
{
    let height = k.g;
    if height > 65535 {
        return Verdict::Malformed;
    }
    let mut out = [FILLER; 4];
    let n = call_motion_rows::viewport_rows(
        op,
        text,
        starts,
        content,
        k.a,
        k.b,
        k.c,
        k.d,
        k.f,
        height as u16,
        k.e,
        &mut out,
    );
    compared(n, &out, stored)
}

// The screen moves that remember: whether an offset is kept, and that, are `own`.
pub(crate) fn kept(
    op: u32,
    k: Head,
    text: &[u32],
    folds: &[u32],
    content: u32,
    starts: &[u32],
    own: &[u32],
    stored: &[u32],
) -> Verdict
    ensures { result ≡ kept_verdict op k text.now folds.now content
        starts.now own.now stored.now }
{
    let width = k.h;
    if width > 65535 {
        return Verdict::Malformed;
    }
    if own.len() != 2 {
        return Verdict::Malformed;
    }
    let held = own[0];
    let offset = own[1];
    let mut out = [FILLER; 6];
    let n = call_motion_rows::screen_kept_rows(
        op,
        text,
        starts,
        content,
        folds,
        k.a,
        k.b,
        k.c,
        k.d,
        held,
        offset,
        k.g,
        width as u16,
        k.e,
        k.f,
        &mut out,
    );
    compared(n, &out, stored)
}
