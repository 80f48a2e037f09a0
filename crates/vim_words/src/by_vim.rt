// `w`, `b`, `e`, `ge` and their capitals by a Vim list, on carets.
ghost use Rattle.std.specs.Prelude.{◌≡◌, ◌<◌, ◌^◌};
ghost use Rattle.vim_grammar.specs.Tokens.{in_vim};
ghost use Rattle.vim_reader.specs.Table.{kept};
ghost use Rattle.motions.specs.Carets.{placed};
ghost use Rattle.motions.specs.WordMoves.{folds_of, word_caret};
ghost use Rattle.vim_words.specs.ByVim.{word_by_vim, Movable};

use crate::VimMoved;
use crate::once::vim_motion;
use motions::Caret;
use positions::Entry;
use vim_reader::VimSpec;
use word_kinds::Spot;
use word_rounds::Motion;

// Where a word motion leads to, of inputs that were accepted.
fn to_word(
    k: Caret,
    t: &[u32],
    own: &[u32],
    spec: VimSpec,
    e: Entry,
    m: Motion,
    big: bool,
    stop: bool,
    count: u32,
) -> Caret
    requires { Movable t.now own.now spec k e }
    ensures { result ≡ word_caret t.now own.now (in_vim (kept spec)) big m
        stop count k }
{
    let at = e.start + k.col as usize;
    let from = Spot {
        row: k.row as usize,
        at: at,
    };
    let r = vim_motion(t, own, spec, big, e.rows, e.content, m, stop, count, from);
    let l = text::offsets::up(t, r.row, r.at, 0);
    motions::placed(k, r.row, r.at - l.start)
}

// A word motion by a Vim list: where it leads to, or why not. By `a_c` `w` leads from column 0 of
// `abx c` to column 2. The refusals are those of the word motions by a list of the first grammar,
// but that of the list: 7, then 17 with the place where it goes wrong, then 8. `ge` takes no folds,
// and `stop` is for `e` that may stay in the first round.
pub fn word_by_vim(
    k: Caret,
    t: &[u32],
    folds: &[u32],
    list: &[u32],
    m: Motion,
    big: bool,
    stop: bool,
    count: u32,
) -> VimMoved
    ensures { result ≡ word_by_vim t.now (folds_of m folds.now)
        list.now big m stop count k }
{
    let n = motions::taken(m, folds);
    let own = &folds[..n];
    let e = k.enter(t);
    let f = positions::or_folds(e, own);
    if f != 0 {
        return VimMoved::Refused(f);
    }
    let p = VimSpec::parse(list);
    if p.refusal == 17 {
        return VimMoved::Bad(p.place);
    }
    if p.refusal != 0 {
        return VimMoved::Refused(p.refusal);
    }
    VimMoved::To(to_word(k, t, own, p.spec, e, m, big, stop, count))
}
