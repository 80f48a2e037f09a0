// What word motions by a Vim list go by, made once for a text and a table; and a motion on offsets.
ghost use Rattle.vim_grammar.specs.Tokens.{in_vim};
ghost use Rattle.vim_reader.specs.Table.{kept};
ghost use Rattle.word_kinds.specs.Places.{kind_of};
ghost use Rattle.word_kinds.specs.Spots.{place_of, Lands};
ghost use Rattle.word_rounds.specs.Rounds.{word_motion};
ghost use Rattle.words.specs.Prepared.{Prepares};
ghost use Rattle.vim_words.specs.Flags.{LowTable};
ghost use Rattle.vim_words.specs.ByVim.{Walkable};

use crate::flags;
use vim_reader::VimSpec;
use word_kinds::{Setting, Spot};
use word_rounds::Motion;
use words::Prepared;

// The flags of the table, the setting, and whether the ranges of the letters are to be lent. The
// rows of the text, and those with content, are handed in. No token that was read has an end above
// 255.
pub fn prepare_vim(t: &[u32], spec: VimSpec, big: bool, rows: usize, content: usize) -> Prepared
    requires { LowTable spec }
    ensures { Prepares t.now (in_vim (kept spec)) big rows content result }
{
    let told = flags::flags_of(spec);
    let s = Setting {
        rows: rows,
        content: content,
        flags: true,
        pairs: 0,
        letters: flags::letters_of(spec),
        big: big,
    };
    let high = words::needs_letters(t);
    Prepared {
        bounds: told,
        setting: s,
        high: high,
    }
}

// A word motion from a place of a text with so many rows, and rows with content.
pub fn vim_motion(
    t: &[u32],
    folds: &[u32],
    spec: VimSpec,
    big: bool,
    rows: usize,
    content: usize,
    m: Motion,
    stop: bool,
    count: u32,
    p: Spot,
) -> Spot
    requires { Walkable t.now folds.now spec rows content p }
    ensures { Lands t.now result
        (word_motion t.now folds.now (kind_of (in_vim (kept spec)) big) big
        m stop count (place_of t.now p)) }
{
    let made = prepare_vim(t, spec, big, rows, content);
    let bounds = made.bounds;
    let s = made.setting;
    words::walk_made(t, folds, &bounds, s, made.high, m, stop, count, p)
}
