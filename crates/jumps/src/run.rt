// The loop over the jumps. What passes over the text, the list, the letters or all folds is made
// before it.
ghost use Rattle.std.specs.Prelude.{false};
ghost use Rattle.word_kinds.specs.Spots.{place_of};
ghost use Rattle.word_kinds.specs.Lent.{kind_by, kinds_by};
ghost use Rattle.list_tokens.specs.Tokens.{any_token};
ghost use Rattle.keywords.specs.Table.{kept};
ghost use Rattle.word_kinds.specs.Places.{kind_of};
ghost use Rattle.jumps.specs.Leaps.{Jumped, Ran};
ghost use Rattle.jumps.specs.Footings.{JumpFooting, RunFooting, LettersFooting, ListFooting};

use crate::leaps::{leap, start_of};
use fold_stretches::Stretch;
use keywords::KeywordSpec;
use word_kinds::{Alphabet, Setting, Spot};
use words::Walked;

// The jump whose kind is at place i of the list, and its row and column in the answers' places i
// and i + 1.
fn jump(
    t: &[u32],
    table: &[u32],
    folds: &[u32],
    by: &Alphabet<'_>,
    jumps: &[u32],
    i: usize,
    answers: &mut [u32],
    w: Stretch,
    p: Spot,
) -> Walked
    requires { JumpFooting t.now table.now folds.now by.now jumps.now i answers.old w p }
    ensures { Jumped t.now folds.now (kinds_by by.now)
        jumps.now i answers.old (place_of t.now p) result
        answers.new }
{
    let r = leap(t, table, folds, by, jumps[i], jumps[i + 1], w, p);
    let to = r.spot;
    let start = start_of(t, table, to.row);
    answers[i] = to.row as u32;
    answers[i + 1] = (to.at - start) as u32;
    r
}

// All jumps from a place, with row and column after each in two places of the answers.
fn run(
    t: &[u32],
    table: &[u32],
    folds: &[u32],
    by: &Alphabet<'_>,
    jumps: &[u32],
    answers: &mut [u32],
    p: Spot,
) -> Spot
    requires { RunFooting t.now table.now folds.now by.now jumps.now answers.old p }
    ensures { Ran t.now folds.now (kinds_by by.now)
        jumps.now answers.old (place_of t.now p) result
        answers.new }
{
    let mut cur = p;
    let mut w = fold_stretches::around(folds, by.setting.rows, p.row);
    for i in (0..jumps.len()).step_by(2) {
        let r = jump(t, table, folds, by, jumps, i, answers, w, cur);
        cur = r.spot;
        w = r.stretch;
    }
    cur
}

// The same with the ranges of the letters, which are named here, where there is no loop.
fn run_with_letters(
    t: &[u32],
    table: &[u32],
    folds: &[u32],
    bounds: &[u32; 256],
    s: Setting,
    jumps: &[u32],
    answers: &mut [u32],
    p: Spot,
) -> Spot
    requires { LettersFooting t.now table.now folds.now bounds.now s jumps.now
        answers.old p }
    ensures { Ran t.now folds.now (kind_by bounds.now s)
        jumps.now answers.old (place_of t.now p) result
        answers.new }
{
    run(
        t,
        table,
        folds,
        &Alphabet {
            bounds: bounds,
            starts: &letters::LETTER_STARTS,
            lengths: &letters::LETTER_LENGTHS,
            setting: s,
        },
        jumps,
        answers,
        p,
    )
}

// All jumps by a keyword list, from a place of a text with so many rows, and rows with content.
pub fn run_by(
    t: &[u32],
    table: &[u32],
    folds: &[u32],
    spec: KeywordSpec,
    rows: usize,
    content: usize,
    jumps: &[u32],
    answers: &mut [u32],
    p: Spot,
) -> Spot
    requires { ListFooting t.now table.now folds.now spec rows content jumps.now
        answers.old p }
    ensures { Ran t.now folds.now (kind_of (any_token (kept spec)) false)
        jumps.now answers.old (place_of t.now p) result
        answers.new }
{
    let made = words::prepare(t, spec, false, rows, content);
    let bounds = made.bounds;
    let s = made.setting;
    if made.high {
        return run_with_letters(t, table, folds, &bounds, s, jumps, answers, p);
    }
    let starts = [0u32; 1];
    let lengths = [0u16; 1];
    run(
        t,
        table,
        folds,
        &Alphabet {
            bounds: &bounds,
            starts: &starts,
            lengths: &lengths,
            setting: s,
        },
        jumps,
        answers,
        p,
    )
}
