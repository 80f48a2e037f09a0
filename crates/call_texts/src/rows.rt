// Rows of a text.
ghost use Rattle.std.specs.Prelude.{◌≡◌};
ghost use Rattle.call_texts.specs.Rows.{row_count, told_rows};
ghost use Rattle.call_bytes.specs.Reply.{Replied};

use call_bytes::{Told, reply};
use text::Counted;

// How many rows, or the number the text is refused with.
fn told_rows(m: Counted) -> Told
    ensures { result ≡ told_rows m }
{
    match m {
        Counted::Rows(n) => Told::Value(n),
        Counted::Refused(f) => Told::Refused(f),
    }
}

// `content_row_count` on code points.
pub fn content_row_count(text: &[u32], out: &mut [u32; 1]) -> u32
    ensures { Replied (row_count text.now) out.old result
        out.new }
{
    reply(told_rows(text::content_row_count(text)), out)
}
