// What word motions go by, made once for a text and a keyword list, however many motions follow.
ghost use Rattle.std.specs.Prelude.{◌≡◌, ◌≤◌};
ghost use Rattle.lists.specs.Lists.{any};
ghost use Rattle.list_tokens.specs.Tokens.{any_token};
ghost use Rattle.keywords.specs.Table.{kept};
ghost use Rattle.word_kinds.specs.Lent.{is_high};
ghost use Rattle.words.specs.Prepared.{Prepares, needs_letters};

use crate::Prepared;
use keywords::KeywordSpec;
use word_kinds::Setting;

// From how many code points on a text is not looked through.
const LONG: usize = 8192;

// Whether the text has a code point for which the ranges of the letters are read.
fn has_high(t: &[u32]) -> bool
    ensures { result ≡ any is_high t.now }
{
    let mut high = false;
    for x in t {
        high |= *x >= 0x2c2;
    }
    high
}

// Whether the ranges of the letters are to be lent: where the text has a code point for which they
// are read, or is so long that to look for one takes longer than to make them.
pub fn needs_letters(t: &[u32]) -> bool
    ensures { result ≡ needs_letters t.now }
{
    if t.len() > LONG {
        return true;
    }
    has_high(t)
}

// The bounds of the list's table, the setting, and whether the ranges of the letters are to be
// lent. The rows of the text, and those with content, are handed in.
pub fn prepare(t: &[u32], spec: KeywordSpec, big: bool, rows: usize, content: usize) -> Prepared
    requires { spec.len ≤ 128 }
    ensures { Prepares t.now (any_token (kept spec)) big rows content result }
{
    let bounds = keywords::bounds_of(spec);
    let s = Setting {
        rows: rows,
        content: content,
        flags: false,
        pairs: spec.len,
        letters: keywords::letters_of(spec),
        big: big,
    };
    let high = needs_letters(t);
    Prepared {
        bounds: bounds,
        setting: s,
        high: high,
    }
}
