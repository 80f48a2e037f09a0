// `gj` and `gk` under wrap: the rounds of `move_screen_vertical` of motions.rs. A row is walked
// once to count its segments and once to come to the one wanted, whatever the count; no room for
// segments is needed. Long by its lists of parameters, a line for each.
ghost use Rattle.std.specs.Prelude.{◌≡◌, ◌≤◌};
ghost use Rattle.chars.specs.Width.{width_with};
ghost use Rattle.screen_segments.specs.Parts.{lay_of};
ghost use Rattle.lists.specs.Rounds.{rounds};
ghost use Rattle.screen.specs.Screen.{step_screen};
ghost use Rattle.screen.specs.Walks.{place_at, seat_at, WalksTo};
ghost use Rattle.screen.specs.Ready.{ReadyAt, Glides, LandReady, Sits, Seated, Placed};
ghost use Rattle.screen.specs.Keeping.{or_own, OffsetIs, glided, GlidesTo};

use crate::{Glided, Seat, Spot};
use chars::Measure;
use text::{Line, Position};
use visible_rows::rows;

// So many rounds from a spot: segments of its row, and then from row to visible row.
fn walk(
    by: Measure<'_>,
    white: &[u32],
    t: &[u32],
    folds: &[u32],
    rows: usize,
    width: u32,
    word: bool,
    down: bool,
    from: Spot,
    n: usize,
) -> Spot
    requires { ReadyAt by white.now t.now folds.now rows width
        word from }
    ensures { WalksTo t.now folds.now
        (lay_of (width_with by.entry) word width) down n from result }
{
    let mut row = from.row;
    let mut start = from.start;
    let mut ahead = from.ahead;
    let mut left = n;
    let mut free = rows::free_rows(folds, rows, down, from.row);
    // A `while`: a turn takes as many rounds as its row has segments ahead.
    while left > ahead {
        let hop = rows::hop(folds, rows, down, row, free);
        let seen = hop.next;
        match seen {
            Some(x) => {
                let next = text::offsets::line_to(t, row, start, x);
                let line = text::offsets::row(t, next);
                left = left - ahead - 1;
                free = hop.free;
                row = next.row;
                start = next.start;
                ahead = screen_segments::segment_count(by, white, line, width, word) - 1;
            }
            None => {
                return Spot {
                    row: row,
                    start: start,
                    ahead: 0,
                };
            }
        }
    }
    Spot {
        row: row,
        start: start,
        ahead: ahead - left,
    }
}

// The place at a spot: so many characters behind the start of its segment.
fn land(
    by: Measure<'_>,
    white: &[u32],
    t: &[u32],
    width: u32,
    word: bool,
    down: bool,
    s: Spot,
    offset: usize,
) -> Position
    requires { LandReady by white.now t.now width word s offset }
    ensures { result ≡ place_at t.now
        (lay_of (width_with by.entry) word width) down offset
        s.row s.ahead }
{
    let l = Line {
        row: s.row,
        start: s.start,
    };
    let row = text::offsets::row(t, l);
    let n = row.len();
    let count = screen_segments::segment_count(by, white, row, width, word);
    let index = screen_segments::ahead_of(down, count, s.ahead);
    let part = screen_segments::find_segment(by, white, row, width, word, n, index);
    Position {
        row: s.row,
        col: screen_segments::clamp_to_segment(part.start, part.end, offset, n),
    }
}

// So many rounds from a spot, with the offset that they keep.
fn glide(
    by: Measure<'_>,
    white: &[u32],
    t: &[u32],
    folds: &[u32],
    rows: usize,
    width: u32,
    word: bool,
    down: bool,
    from: Spot,
    offset: usize,
    n: usize,
) -> Position
    requires { Glides by white.now t.now folds.now rows width
        word from offset }
    ensures { result ≡ rounds
        (step_screen t.now folds.now
        (lay_of (width_with by.entry) word width) down offset) n
        (place_at t.now
        (lay_of (width_with by.entry) word width) down offset
        from.row from.ahead) }
{
    let s = walk(by, white, t, folds, rows, width, word, down, from, n);
    land(by, white, t, width, word, down, s, offset)
}

// How many segments lie ahead of a place in its row, and its character offset in its segment.
fn seat(
    by: Measure<'_>,
    white: &[u32],
    t: &[u32],
    width: u32,
    word: bool,
    down: bool,
    l: Line,
    col: usize,
) -> Seat
    requires { Sits by white.now t.now width l }
    ensures { result ≡ seat_at t.now
        (lay_of (width_with by.entry) word width) down
        (record { row = l.row; col = col }) }
{
    let row = text::offsets::row(t, l);
    let n = row.len();
    let part = screen_segments::find_segment(by, white, row, width, word, col, n);
    let count = screen_segments::segment_count(by, white, row, width, word);
    Seat {
        ahead: screen_segments::ahead_of(down, count, part.index),
        offset: col.saturating_sub(part.start),
    }
}

// The rounds of a count from a place with so many segments ahead, by the offset that they keep.
// Where no segment and no row lies ahead the place stays, even behind the row's last character.
fn rounds_from(
    by: Measure<'_>,
    white: &[u32],
    t: &[u32],
    folds: &[u32],
    rows: usize,
    width: u32,
    word: bool,
    down: bool,
    l: Line,
    col: usize,
    ahead: usize,
    offset: usize,
    n: usize,
) -> Position
    requires { Seated by white.now t.now folds.now rows width
        word down l col ahead offset n }
    ensures { result ≡ rounds (step_screen t.now folds.now
        (lay_of (width_with by.entry) word width) down offset) n
        (record { row = l.row; col = col }) }
{
    let from = Spot {
        row: l.row,
        start: l.start,
        ahead: ahead,
    };
    if ahead > 0 {
        return glide(
            by, white, t, folds, rows, width, word, down, from, offset, n,
        );
    }
    match rows::visible_row(folds, rows, down, l.row) {
        Some(x) => glide(
            by, white, t, folds, rows, width, word, down, from, offset, n,
        ),
        None => Position {
            row: l.row,
            col: col,
        },
    }
}

// The offset at hand, or a place's own.
fn or_own(offset: Option<u32>, own: usize) -> usize
    requires { own ≤ 1048576 }
    ensures { OffsetIs (or_own offset own) result }
{
    match offset {
        None => own,
        Some(x) => x as usize,
    }
}

// The rounds of a count from a place, which keep the offset at hand or the place's own.
pub fn screen_from(
    by: Measure<'_>,
    white: &[u32],
    t: &[u32],
    folds: &[u32],
    rows: usize,
    width: u32,
    word: bool,
    down: bool,
    l: Line,
    col: usize,
    offset: Option<u32>,
    n: usize,
) -> Glided
    requires { Placed by white.now t.now folds.now rows width
        l col n }
    ensures { GlidesTo (glided t.now folds.now
        (lay_of (width_with by.entry) word width) down n offset
        (record { row = l.row; col = col })) result }
{
    let s = seat(by, white, t, width, word, down, l, col);
    let kept = or_own(offset, s.offset);
    let p = rounds_from(
        by, white, t, folds, rows, width, word, down, l, col, s.ahead, kept, n,
    );
    Glided {
        place: p,
        offset: kept,
    }
}
