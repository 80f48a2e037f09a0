// From a text and a keyword list to the classes: the one place that reads code points.
ghost use Rattle.std.specs.Prelude.{◌≡◌};
ghost use Rattle.list_tokens.specs.Tokens.{any_token};
ghost use Rattle.keywords.specs.Table.{kept};
ghost use Rattle.word_classes.specs.Classes.{char_class, end_class, classes_of, holding};
ghost use Rattle.word_classes.specs.Classes.{Askable, Writable};

use crate::{EMPTY_ROW, MARK, ROW_END, SPACE, WORD};
use keywords::{KeywordSpec, Matched};

// Whether the keyword list holds a character: `@,48-57,_` holds `f` and not `(`.
fn is_word(spec: KeywordSpec, x: u32) -> bool
    requires { Askable spec x }
    ensures { result ≡ any_token (kept spec) x }
{
    match spec.matches(x) {
        Matched::Is(held) => held,
        Matched::Refused(f) => false,
    }
}

// The class of a character: `f` is a word, `(` a mark. White space is a space, also where the list
// holds it.
fn char_class(spec: KeywordSpec, x: u32) -> u8
    requires { Askable spec x }
    ensures { result ≡ char_class (any_token (kept spec)) x }
{
    if chars::is_white(x) {
        return SPACE;
    }
    if is_word(spec, x) {
        return WORD;
    }
    MARK
}

// The class of a separator, or of the text's end: an empty row where it is the first place of its
// row, else a row end. The row before it decides, and not the one after it.
fn end_class(first: bool) -> u8
    ensures { result ≡ end_class first }
{
    if first {
        return EMPTY_ROW;
    }
    ROW_END
}

// Writes the classes of a text that was accepted to the front of a slice that has the places. The
// other places stay. Of `a`, a separator and the end they are 0, 4, 3.
pub fn write_classes(t: &[u32], spec: KeywordSpec, classes: &mut [u8])
    requires { Writable t.now spec classes.old }
    ensures { classes.new ≡
        holding (classes_of (any_token (kept spec)) t.now) classes.old }
{
    let mut first = true;
    for (i, x) in t.iter().enumerate() {
        if *x == 10 {
            classes[i] = end_class(first);
            first = true;
        } else {
            classes[i] = char_class(spec, *x);
            first = false;
        }
    }
    let last = end_class(first);
    classes[t.len()] = last;
}
