// A word motion as a whole: what it goes by is made, and then come the first round and the rest of
// the count.
// `move_word_fwd` and its like of motions.rs.
ghost use Rattle.std.specs.Prelude.{◌≡◌, ◌-◌, max};
ghost use Rattle.list_tokens.specs.Tokens.{any_token};
ghost use Rattle.keywords.specs.Table.{kept};
ghost use Rattle.word_kinds.specs.Places.{kind_of};
ghost use Rattle.word_rounds.specs.Rounds.{word_motion};
ghost use Rattle.word_kinds.specs.Spots.{place_of, Lands};
ghost use Rattle.word_rounds.specs.Turns.{Set};
ghost use Rattle.word_kinds.specs.Lent.{kind_by, kinds_by};
ghost use Rattle.words.specs.Ready.{BoundsReady, MadeReady, ListReady};

use crate::once::prepare;
use crate::rounds;
use keywords::KeywordSpec;
use word_ends::Turn;
use word_kinds::{Alphabet, Setting, Spot};
use word_rounds::Motion;

// A motion, by bounds, ranges of letters and a setting that were made before. `stop` holds in the
// first round alone.
pub fn walk(
    t: &[u32],
    folds: &[u32],
    by: &Alphabet<'_>,
    m: Motion,
    stop: bool,
    count: u32,
    p: Spot,
) -> Spot
    requires { Set t.now folds.now by.now p }
    ensures { Lands t.now result
        (word_motion t.now folds.now (kinds_by by.now)
        by.now.setting.big m stop count (place_of t.now p)) }
{
    match word_rounds::rounds::round(t, folds, by, m, stop, p) {
        Turn::On(q) => rounds::rounds(t, folds, by, m, count.max(1) - 1, q),
        Turn::Off(q) => q,
    }
}

// The same with the ranges of the letters, which are named here, where there is no loop.
fn walk_with_letters(
    t: &[u32],
    folds: &[u32],
    bounds: &[u32; 256],
    s: Setting,
    m: Motion,
    stop: bool,
    count: u32,
    p: Spot,
) -> Spot
    requires { BoundsReady t.now folds.now bounds.now s p }
    ensures { Lands t.now result
        (word_motion t.now folds.now (kind_by bounds.now s)
        s.big m stop count (place_of t.now p)) }
{
    walk(
        t,
        folds,
        &Alphabet {
            bounds: bounds,
            starts: &letters::LETTER_STARTS,
            lengths: &letters::LETTER_LENGTHS,
            setting: s,
        },
        m,
        stop,
        count,
        p,
    )
}

// The same by what was made for the text. The ranges of the letters are lent where the text may
// need them, `high`, and else other numbers, which are then not read as letters.
pub fn walk_made(
    t: &[u32],
    folds: &[u32],
    bounds: &[u32; 256],
    s: Setting,
    high: bool,
    m: Motion,
    stop: bool,
    count: u32,
    p: Spot,
) -> Spot
    requires { MadeReady t.now folds.now bounds.now s high p }
    ensures { Lands t.now result
        (word_motion t.now folds.now (kind_by bounds.now s)
        s.big m stop count (place_of t.now p)) }
{
    if high {
        return walk_with_letters(t, folds, bounds, s, m, stop, count, p);
    }
    let starts = [0u32; 1];
    let lengths = [0u16; 1];
    walk(
        t,
        folds,
        &Alphabet {
            bounds: bounds,
            starts: &starts,
            lengths: &lengths,
            setting: s,
        },
        m,
        stop,
        count,
        p,
    )
}

// A word motion from a place of a text with so many rows, and rows with content.
pub fn word_motion(
    t: &[u32],
    folds: &[u32],
    spec: KeywordSpec,
    big: bool,
    rows: usize,
    content: usize,
    m: Motion,
    stop: bool,
    count: u32,
    p: Spot,
) -> Spot
    requires { ListReady t.now folds.now spec rows content p }
    ensures { Lands t.now result
        (word_motion t.now folds.now (kind_of (any_token (kept spec)) big) big
        m stop count (place_of t.now p)) }
{
    let made = prepare(t, spec, big, rows, content);
    let bounds = made.bounds;
    let s = made.setting;
    walk_made(t, folds, &bounds, s, made.high, m, stop, count, p)
}
