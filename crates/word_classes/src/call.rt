// The classes of a text as a call of its own, with its refusals.
ghost use Rattle.std.specs.Prelude.{◌≡◌};
ghost use Rattle.word_classes.specs.Call.{places_refusal, write_refusal, written_of};
ghost use Rattle.word_classes.specs.Call.{sliced_by};

use crate::Written;
use crate::classes::write_classes;
use keywords::KeywordSpec;

// 14 where the slice has fewer places than the text's code points and its end: of `if (n) {` where
// it has fewer than 9.
pub fn places_refusal(t: &[u32], classes: &[u8]) -> u32
    ensures { result ≡ places_refusal t.now classes.now }
{
    if t.len() < classes.len() {
        return 0;
    }
    14
}

// Writes the classes of a text to the front of a slice, and answers how many: of `if (n) {` 9. The
// places past them stay. Or answers the number that the call is refused with, 1 to 3 for the text,
// 7 and 8 for the list, and then 14 where the slice has too few places; the slice stays then.
pub fn word_classes(t: &[u32], list: &[u32], classes: &mut [u8]) -> Written
    ensures answer { result ≡ written_of t.now list.now
        classes.old }
    ensures left { classes.new ≡ sliced_by (write_refusal t.now
        list.now classes.old) t.now list.now
        classes.old }
{
    let f = text_check::text_refusal(t);
    if f != 0 {
        return Written::Refused(f);
    }
    let p = KeywordSpec::parse(list);
    if p.refusal != 0 {
        return Written::Refused(p.refusal);
    }
    let g = places_refusal(t, classes);
    if g != 0 {
        return Written::Refused(g);
    }
    write_classes(t, p.spec, classes);
    Written::Made(t.len() + 1)
}
