// Word motions.
ghost use Rattle.std.specs.Prelude.{◌≡◌, Some};
ghost use Rattle.call_bytes.specs.Reply.{Replied};
ghost use Rattle.call_texts.specs.Carets.{caret_of};
ghost use Rattle.call_folds.specs.Terms.{is_big, word_of, words};

use call_texts::{caret_of, move_as, place};
use motions::Move;
use word_rounds::Motion;

// A word motion.
fn by(motion: Motion, big: bool, stop: bool) -> Option<Move>
    ensures { result ≡ Some (Move.Word motion big stop) }
{
    Some(Move::Word {
        motion: motion,
        big: big,
        stop: stop,
    })
}

// The word motion that a number stands for: 0 `move_word_fwd`, 1 `move_word_back`, 2 and 3
// `move_word_end` with stop off and on, 4 `move_word_end_back`, which takes no folds.
pub fn word_of(op: u32, big: bool) -> Option<Move>
    ensures { result ≡ word_of op big }
{
    match op {
        0 => by(Motion::Fwd, big, false),
        1 => by(Motion::Back, big, false),
        2 => by(Motion::End, big, false),
        3 => by(Motion::End, big, true),
        4 => by(Motion::EndBack, big, false),
        _ => None,
    }
}

// A word motion over a text of code points, with folds and a keyword list; big words where `big` is
// not 0.
pub fn word(
    op: u32,
    text: &[u32],
    folds: &[u32],
    list: &[u32],
    row: u32,
    col: u32,
    held: u32,
    sticky: u32,
    big: u32,
    count: u32,
    out: &mut [u32; 4],
) -> u32
    ensures { Replied (words op (is_big big) count (caret_of row col held sticky)
        text.now folds.now list.now) out.old result
        out.new }
{
    let k = caret_of(row, col, held, sticky);
    place(
        move_as(word_of(op, big != 0), k, text, folds, list, 0, count),
        out,
    )
}
