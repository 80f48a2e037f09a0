// Word motions by a Vim list.
ghost use Rattle.std.specs.Prelude.{◌≡◌, ◌≤◌};
ghost use Rattle.call_bytes.specs.Reply.{Replied};
ghost use Rattle.call_signs.specs.Entry.{placed};
ghost use Rattle.call_texts.specs.Carets.{caret_of};
ghost use Rattle.call_folds.specs.Terms.{is_big};
ghost use Rattle.call_vim_words.specs.ByTerm.{by_vim_term, vim_moved, PlaceIn, words_vim};

use call_texts::{caret_of, place};
use motions::{Caret, Moved};
use vim_words::VimMoved;
use word_rounds::Motion;

// The answer; 100 where the number stands for no motion.
fn by_term(
    a: Option<(Motion, bool)>,
    big: bool,
    count: u32,
    k: Caret,
    text: &[u32],
    folds: &[u32],
    list: &[u32],
) -> VimMoved
    ensures { result ≡ by_vim_term a big count k text.now folds.now
        list.now }
{
    match a {
        Some((m, stop)) => vim_words::word_by_vim(k, text, folds, list, m, big, stop, count),
        None => VimMoved::Refused(100),
    }
}

// A refusal's number, and the place in the list that it names.
fn placed_at(n: u32, place: usize) -> u64
    requires { place ≤ 1024 }
    ensures { result ≡ placed n place }
{
    place as u64 * 4294967296 + n as u64
}

// Puts a caret that moved into `out` and answers 0, or answers the refusal with its place.
fn place_vim(r: VimMoved, out: &mut [u32; 4]) -> u64
    requires { PlaceIn r }
    ensures { Replied (vim_moved r) out.old result out.new }
{
    match r {
        VimMoved::To(k) => place(Moved::To(k), out) as u64,
        VimMoved::Bad(p) => placed_at(17, p),
        VimMoved::Refused(f) => f as u64,
    }
}

// A word motion over a text of code points, with folds and a Vim list; big words where `big` is not
// 0. The motions have the numbers of `tsivareza_word`.
pub fn word_vim(
    op: u32,
    text: &[u32],
    folds: &[u32],
    list: &[u32],
    row: u32,
    col: u32,
    held: u32,
    sticky: u32,
    big: u32,
    count: u32,
    out: &mut [u32; 4],
) -> u64
    ensures { Replied (words_vim op (is_big big) count (caret_of row col held sticky)
        text.now folds.now list.now) out.old result
        out.new }
{
    let k = caret_of(row, col, held, sticky);
    let a = call_classes::term_of(op);
    place_vim(by_term(a, big != 0, count, k, text, folds, list), out)
}
