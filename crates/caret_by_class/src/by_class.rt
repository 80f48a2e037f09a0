// `w`, `b`, `e`, `ge` and their capitals by the classes.
ghost use Rattle.std.specs.Prelude.{◌≡◌, ◌<◌, ◌^◌};
ghost use Rattle.list_tokens.specs.Tokens.{any_token};
ghost use Rattle.keywords.specs.Table.{kept};
ghost use Rattle.word_classes.specs.Call.{sliced_by};
ghost use Rattle.motions.specs.Carets.{placed};
ghost use Rattle.motions.specs.WordMoves.{folds_of};
ghost use Rattle.caret_by_class.specs.ByClass.{class_refusal, move_by_class, Movable, Written};

use keywords::KeywordSpec;
use motions::{Caret, Moved};
use text::Position;
use word_rounds::Motion;

// Where a motion leads to, of inputs that were accepted: the classes are written, and from there on
// the text and the list are read no more.
fn by_classes(
    k: Caret,
    t: &[u32],
    own: &[u32],
    spec: KeywordSpec,
    m: Motion,
    big: bool,
    stop: bool,
    count: u32,
    classes: &mut [u8],
) -> Caret
    requires { Movable t.now own.now spec k classes.old }
    ensures { Written t.now own.now (any_token (kept spec)) big m stop
        count k classes.old result classes.new }
{
    word_classes::write_classes(t, spec, classes);
    let n = t.len() + 1;
    let c: &[u8] = classes;
    let at = Position {
        row: k.row as usize,
        col: k.col as usize,
    };
    let to = word_by_class::word_by_class(&c[..n], own, m, big, stop, count, at);
    motions::placed(k, to.row, to.col)
}

// A word motion by the classes: where it leads to, or the number that the call is refused with. By
// 2 `w` leads from column 0 of `if (n) {` to column 4. The refusals are those of the first engine,
// and then 14 where the slice has fewer places than the text's code points and its end, here 9. The
// classes stand at the front of the slice afterwards, and the places past them stay; of a refused
// call the whole slice stays. `stop` is for `e` that may stay in the first round.
pub fn word_by_class(
    k: Caret,
    t: &[u32],
    folds: &[u32],
    list: &[u32],
    m: Motion,
    big: bool,
    stop: bool,
    count: u32,
    classes: &mut [u8],
) -> Moved
    ensures answer { result ≡ move_by_class t.now (folds_of m folds.now)
        list.now big m stop count k classes.old }
    ensures left { classes.new ≡ sliced_by (class_refusal t.now
        (folds_of m folds.now) list.now k classes.old)
        t.now list.now classes.old }
{
    let n = motions::taken(m, folds);
    let own = &folds[..n];
    let e = k.enter(t);
    let f = positions::or_folds(e, own);
    if f != 0 {
        return Moved::Refused(f);
    }
    let p = KeywordSpec::parse(list);
    if p.refusal != 0 {
        return Moved::Refused(p.refusal);
    }
    let g = word_classes::places_refusal(t, classes);
    if g != 0 {
        return Moved::Refused(g);
    }
    Moved::To(by_classes(k, t, own, p.spec, m, big, stop, count, classes))
}
