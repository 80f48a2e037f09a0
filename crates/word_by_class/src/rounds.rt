// The rounds of a word motion, and the motion from a row and a column to another. The examples are
// of `if (n) {`, with the classes 0 0 2 1 0 1 2 1 4, small words and no folds.
ghost use Rattle.std.specs.Prelude.{◌≡◌, false, ◌+◌, ◌-◌, ◌<◌, max, length};
ghost use Rattle.word_class_rows.specs.Rows.{rows_of, start_of};
ghost use Rattle.word_by_class.specs.Rounds.{turn, end_turn, round_of, counted};
ghost use Rattle.word_by_class.specs.Rounds.{motion as motion_of};
ghost use Rattle.word_by_class.specs.Rounds.{position_of, Ready, Near, Asked};

use crate::fold_jumps::{jump_back, jump_fwd};
use fold_stretches::Stretch;
use text::Position;
use word_class_rows::{content_of, ends, moved, row_end, row_start};
use word_ends::Turn;
use word_kinds::Spot;
use word_rounds::Motion;

// The round's answer: the word found, or the place from which none was found. From 0, with the word
// at 3, it goes on from 3; from 8, with none, it ends at 8.
fn turned(from: usize, found: Option<usize>) -> Turn<usize>
    ensures { result ≡ turn from found }
{
    match found {
        Some(j) => Turn::On(j),
        None => Turn::Off(from),
    }
}

// A round of `e`; `stop` holds it at the end of a word: from 1 to 3, and with `stop` from 1 to 1.
fn end_round(c: &[u8], big: bool, stop: bool, from: usize) -> Turn<usize>
    requires { from < length c.now }
    ensures { result ≡ end_turn c.now big stop from }
{
    if stop {
        if word_hops::at_end(c, big, from) {
            return Turn::On(from);
        }
        return turned(from, word_hops::next_end(c, big, from));
    }
    turned(from, word_hops::next_end(c, big, from))
}

// A round of a motion: out of a closed fold, and then one word: of `w` from 0 to 3. `ge` takes no
// folds.
fn round(
    c: &[u8],
    folds: &[u32],
    rows: usize,
    content: usize,
    m: Motion,
    big: bool,
    stop: bool,
    p: Spot,
) -> Turn<usize>
    requires { Ready c.now folds.now rows content p }
    ensures { result ≡ round_of c.now folds.now big m stop p.at }
{
    match m {
        Motion::Fwd => {
            let from = jump_fwd(c, folds, rows, content, p);
            turned(from, word_hops::next_start(c, big, from))
        }
        Motion::Back => {
            let from = jump_back(c, folds, rows, content, p);
            turned(from, word_hops::prev_start(c, big, from))
        }
        Motion::End => end_round(c, big, stop, jump_fwd(c, folds, rows, content, p)),
        Motion::EndBack => turned(p.at, word_hops::prev_end(c, big, p.at)),
    }
}

// A round after the first, where a stretch of rows without closed folds is known: in it the folds
// are not asked.
fn round_near(
    c: &[u8],
    folds: &[u32],
    rows: usize,
    content: usize,
    m: Motion,
    big: bool,
    w: Stretch,
    p: Spot,
) -> Turn<usize>
    requires { Near c.now folds.now rows content w p }
    ensures { result ≡ round_of c.now folds.now big m false p.at }
{
    if (w.lo <= p.row) & (p.row < w.hi) {
        let none = &folds[..0];
        return round(c, none, rows, content, m, big, false, p);
    }
    round(c, folds, rows, content, m, big, false, p)
}

// The rounds after the first, up to a count: two of `w` from 0 to 4. One that changes nothing ends
// them, and so does one that finds no word: nine of `w` from 0 end at 8. The folds are asked where
// a round leaves a stretch of rows without closed folds, and not at every round.
fn rounds(
    c: &[u8],
    folds: &[u32],
    rows: usize,
    content: usize,
    m: Motion,
    big: bool,
    count: u32,
    p: Spot,
) -> usize
    requires { Ready c.now folds.now rows content p }
    ensures { result ≡ counted (round_of c.now folds.now big m false) count
        p.at }
{
    let mut cur = p;
    let mut w = fold_stretches::around(folds, rows, p.row);
    for _ in 0..count {
        w = fold_stretches::near(folds, rows, w, cur.row);
        match round_near(c, folds, rows, content, m, big, w, cur) {
            Turn::On(j) => {
                if j == cur.at {
                    return j;
                }
                cur = moved(c, cur, j);
            }
            Turn::Off(j) => {
                return j;
            }
        }
    }
    cur.at
}

// A motion from a place. `stop` holds in the first round alone: by 2 `e` with `stop` goes from 1 to
// 1, and then to 3.
fn motion(
    c: &[u8],
    folds: &[u32],
    rows: usize,
    content: usize,
    m: Motion,
    big: bool,
    stop: bool,
    count: u32,
    p: Spot,
) -> usize
    requires { Ready c.now folds.now rows content p }
    ensures { result ≡ motion_of c.now folds.now big m stop count
        p.at }
{
    match round(c, folds, rows, content, m, big, stop, p) {
        Turn::On(j) => rounds(
            c,
            folds,
            rows,
            content,
            m,
            big,
            count.max(1) - 1,
            moved(c, p, j),
        ),
        Turn::Off(j) => j,
    }
}

// The first place of a row: of row 0 place 0, and of the next one the place behind the end of it.
fn start_of(c: &[u8], row: usize) -> usize
    requires { row < rows_of c.now }
    ensures { result ≡ start_of c.now row }
{
    if row == 0 {
        return 0;
    }
    row_end(c, Spot { row: 0, at: 0 }, row - 1) + 1
}

// A word motion from a row and a column to another, by the classes and the folds alone: `w` by 2
// goes from row 0, column 0 to row 0, column 4. The column may be behind the row's last character.
pub fn word_by_class(
    c: &[u8],
    folds: &[u32],
    m: Motion,
    big: bool,
    stop: bool,
    count: u32,
    at: Position,
) -> Position
    requires { Asked c.now folds.now at }
    ensures { result ≡ position_of c.now (motion_of c.now
        folds.now big m stop count (start_of c.now at.row + at.col)) }
{
    let rows = ends(c, 0, c.len());
    let from = Spot {
        row: at.row,
        at: start_of(c, at.row) + at.col,
    };
    let j = motion(
        c,
        folds,
        rows,
        content_of(c, rows),
        m,
        big,
        stop,
        count,
        from,
    );
    let to = moved(c, from, j);
    Position {
        row: to.row,
        col: j - row_start(c, to, to.row),
    }
}
