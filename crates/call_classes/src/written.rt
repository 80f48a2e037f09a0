// The classes of a text.
ghost use Rattle.std.specs.Prelude.{◌≡◌};
ghost use Rattle.call_bytes.specs.Reply.{Replied};
ghost use Rattle.word_classes.specs.Call.{written_of};
ghost use Rattle.call_classes.specs.Classed.{told_written, classing, classes_in};

use call_bytes::{Told, reply};
use word_classes::Written;

// How many classes were written, or a refusal.
fn classes_told(text: &[u32], list: &[u32], classes: &mut [u8]) -> Told
    ensures value { result ≡ told_written (written_of text.now list.now
        classes.old) }
    ensures classes_after { classes.new ≡ classes_in text.now list.now
        classes.old }
{
    match word_classes::word_classes(text, list, classes) {
        Written::Made(n) => Told::Value(n as u32),
        Written::Refused(f) => Told::Refused(f),
    }
}

// The classes of a text of code points, by a keyword list, into a lent slice; `out` gets how many.
pub fn word_classes(text: &[u32], list: &[u32], classes: &mut [u8], out: &mut [u32; 1]) -> u32
    ensures replied { Replied (classing text.now list.now
        classes.old) out.old result out.new }
    ensures classes_after { classes.new ≡ classes_in text.now list.now
        classes.old }
{
    reply(classes_told(text, list, classes), out)
}
