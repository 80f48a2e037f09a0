// `w`, `b`, `e`, `ge` and their capitals: motions.rs, "Word motions". The walks are those of
// `words`.
ghost use Rattle.std.specs.Prelude.{◌≡◌, false, []};
ghost use Rattle.list_tokens.specs.Tokens.{any_token};
ghost use Rattle.keywords.specs.Table.{kept};
ghost use Rattle.motions.specs.WordMoves.{folds_of, word_caret, move_word};
ghost use Rattle.motions.specs.Ready.{WordReady, TableReady};
ghost use Rattle.motions.specs.Going.{word_by};

use crate::checks::taken;
use crate::{Caret, Move, Moved, Sought};
use keywords::KeywordSpec;
use positions::Entry;
use word_kinds::Spot;
use word_rounds::Motion;

impl Caret {
    // Where a word motion leads to, of inputs that were accepted.
    pub(crate) fn to_word(
        self,
        t: &[u32],
        folds: &[u32],
        spec: KeywordSpec,
        e: Entry,
        m: Motion,
        big: bool,
        stop: bool,
        count: u32,
    ) -> Caret
        requires { TableReady t.now folds.now spec m self e }
        ensures { result ≡ word_caret t.now (folds_of m folds.now)
            (any_token (kept spec)) big m stop count self }
    {
        let n = taken(m, folds);
        let own = &folds[..n];
        let at = e.start + self.col as usize;
        let from = Spot {
            row: self.row as usize,
            at: at,
        };
        let r = words::word_motion(t, own, spec, big, e.rows, e.content, m, stop, count, from);
        let l = text::offsets::up(t, r.row, r.at, 0);
        self.placed(r.row, r.at - l.start)
    }

    // A word motion of a text, caret and folds that were accepted: its list is checked (7, 8).
    pub(crate) fn by_list(
        self,
        t: &[u32],
        folds: &[u32],
        list: &[u32],
        e: Entry,
        m: Motion,
        big: bool,
        stop: bool,
        count: u32,
    ) -> Sought
        requires { WordReady t.now folds.now m self e }
        ensures { result ≡ word_by t.now (folds_of m folds.now)
            list.now big m stop count self }
    {
        let p = KeywordSpec::parse(list);
        if p.refusal != 0 {
            return Sought::Refused(p.refusal);
        }
        Sought::Found(self.to_word(t, folds, p.spec, e, m, big, stop, count))
    }

    // `w`, `W`: the start of the next word.
    pub fn move_word_fwd(
        self,
        t: &[u32],
        folds: &[u32],
        big: bool,
        count: u32,
        list: &[u32],
    ) -> Moved
        ensures { result ≡ move_word t.now folds.now
            list.now big Motion.Fwd false count self }
    {
        self.moved_by(
            t,
            folds,
            list,
            0,
            Move::Word {
                motion: Motion::Fwd,
                big: big,
                stop: false,
            },
            count,
        )
    }

    // `b`, `B`: the start of the word before.
    pub fn move_word_back(
        self,
        t: &[u32],
        folds: &[u32],
        big: bool,
        count: u32,
        list: &[u32],
    ) -> Moved
        ensures { result ≡ move_word t.now folds.now
            list.now big Motion.Back false count self }
    {
        self.moved_by(
            t,
            folds,
            list,
            0,
            Move::Word {
                motion: Motion::Back,
                big: big,
                stop: false,
            },
            count,
        )
    }

    // `e`, `E`: the end of the word; with `stop`, the first round stays where it stands at one.
    pub fn move_word_end(
        self,
        t: &[u32],
        folds: &[u32],
        big: bool,
        count: u32,
        stop: bool,
        list: &[u32],
    ) -> Moved
        ensures { result ≡ move_word t.now folds.now
            list.now big Motion.End stop count self }
    {
        self.moved_by(
            t,
            folds,
            list,
            0,
            Move::Word {
                motion: Motion::End,
                big: big,
                stop: stop,
            },
            count,
        )
    }

    // `ge`, `g_e`: the end of the word before. It takes no folds.
    pub fn move_word_end_back(self, t: &[u32], big: bool, count: u32, list: &[u32]) -> Moved
        ensures { result ≡ move_word t.now [] list.now big
            Motion.EndBack false count self }
    {
        let none = &t[..0];
        self.moved_by(
            t,
            none,
            list,
            0,
            Move::Word {
                motion: Motion::EndBack,
                big: big,
                stop: false,
            },
            count,
        )
    }
}
