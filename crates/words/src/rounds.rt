// The rounds of a count: the loops of `move_word_fwd`, `move_word_back`, `move_word_end` and
// `move_word_end_back` of motions.rs.
ghost use Rattle.std.specs.Prelude.{false};
ghost use Rattle.word_kinds.specs.Spots.{place_of, Lands};
ghost use Rattle.word_kinds.specs.Lent.{kinds_by};
ghost use Rattle.word_rounds.specs.Rounds.{round_of, counted};
ghost use Rattle.word_rounds.specs.Turns.{ComesTo, Set};
ghost use Rattle.words.specs.Walked.{Rounded};
ghost use Rattle.words.specs.Ready.{NearReady};

use crate::Walked;
use fold_stretches::Stretch;
use word_ends::Turn;
use word_kinds::{Alphabet, Spot};
use word_rounds::Motion;

// A round after the first, where a stretch of rows without closed folds is known: outside it the
// folds are lent, and in it none.
fn round_near(
    t: &[u32],
    folds: &[u32],
    by: &Alphabet<'_>,
    m: Motion,
    w: Stretch,
    p: Spot,
) -> Turn<Spot>
    requires { NearReady t.now folds.now by.now w p }
    ensures { ComesTo t.now result
        (round_of t.now folds.now (kinds_by by.now) by.now.setting.big m
        false (place_of t.now p)) }
{
    if (w.lo <= p.row) & (p.row < w.hi) {
        let none = &folds[..0];
        return word_rounds::rounds::round(t, none, by, m, false, p);
    }
    word_rounds::rounds::round(t, folds, by, m, false, p)
}

// Rounds up to a count, from a stretch of rows without closed folds that is known; with the place
// comes the stretch that is known then, so that a walk that follows need not ask all folds. One
// that changes nothing ends them: where a closed fold covers the end of the text, each round comes
// to the same place. Any other passes places that no later round passes again; a jump passes the
// rows of a fold, and the next round starts outside it. The folds are asked where a round leaves a
// stretch of rows without closed folds: some twice for each fold, a pass over them each time. So
// the cost is linear in the text, and some passes over the folds for each fold, whatever the count.
pub fn rounds_from(
    t: &[u32],
    folds: &[u32],
    by: &Alphabet<'_>,
    m: Motion,
    known: Stretch,
    count: u32,
    p: Spot,
) -> Walked
    requires { NearReady t.now folds.now by.now known
        p }
    ensures { Rounded t.now folds.now (kinds_by by.now) by.now.setting.big m
        count (place_of t.now p) result }
{
    let mut cur = p;
    let mut w = known;
    for _ in 0..count {
        w = fold_stretches::near(folds, by.setting.rows, w, cur.row);
        match round_near(t, folds, by, m, w, cur) {
            Turn::On(q) => {
                if q.at == cur.at {
                    return Walked {
                        spot: cur,
                        stretch: w,
                    };
                }
                cur = q;
            }
            Turn::Off(q) => {
                return Walked {
                    spot: q,
                    stretch: w,
                };
            }
        }
    }
    Walked {
        spot: cur,
        stretch: w,
    }
}

// The same where no stretch is known.
pub fn rounds(t: &[u32], folds: &[u32], by: &Alphabet<'_>, m: Motion, count: u32, p: Spot) -> Spot
    requires { Set t.now folds.now by.now p }
    ensures { Lands t.now result
        (counted
        (round_of t.now folds.now (kinds_by by.now) by.now.setting.big m
        false)
        count (place_of t.now p)) }
{
    let w = fold_stretches::around(folds, by.setting.rows, p.row);
    let r = rounds_from(t, folds, by, m, w, count, p);
    r.spot
}
