// The verdict of a case on row starts, by its operation: 0 fills, 1 inserts, 2 deletes; from 100 on
// the motions, from 200 on the word motions, from 300 on up, down and the screen, from 600 on the
// viewport, from 700 on the searches and from 800 on the screen moves that remember, each by its
// own numbers. The list of a fill is its table; of any other case the number of rows with content,
// how many places the table has, those, and what the call takes beside them: what is put in, a
// keyword list, or whether an offset is kept, and that.
ghost use Rattle.std.specs.Prelude.{◌≡◌};
ghost use Rattle.replay_tables.specs.Verdicts.{moved_verdict, parts_verdict, tabled_verdict};

use crate::editing::edit;
use crate::filling::fill;
use crate::moving::{kept, motion, seek, vertical, viewport, word};
use replay_rows::Head;
use replay_verdicts::Verdict;

// A motion.
fn moved(
    k: Head,
    text: &[u32],
    folds: &[u32],
    content: u32,
    starts: &[u32],
    own: &[u32],
    stored: &[u32],
) -> Verdict
    ensures { result ≡ moved_verdict k text.now folds.now content
        starts.now own.now stored.now }
{
    let op = k.op;
    if op < 100 {
        return Verdict::Malformed;
    }
    if op < 200 {
        return motion(op - 100, k, text, content, starts, stored);
    }
    if op < 300 {
        return word(op - 200, k, text, folds, content, starts, own, stored);
    }
    if op < 600 {
        return vertical(op - 300, k, text, folds, content, starts, stored);
    }
    if op < 700 {
        return viewport(op - 600, k, text, content, starts, stored);
    }
    if op < 800 {
        return seek(op - 700, k, text, content, starts, stored);
    }
    kept(op - 800, k, text, folds, content, starts, own, stored)
}

// An edit or a motion, by the parts of its list.
fn by_parts(
    k: Head,
    text: &[u32],
    folds: &[u32],
    content: u32,
    starts: &[u32],
    own: &[u32],
    stored: &[u32],
) -> Verdict
    ensures { result ≡ parts_verdict k text.now folds.now content
        starts.now own.now stored.now }
{
    if k.op < 3 {
        return edit(k, text, folds, content, starts, own, stored);
    }
    moved(k, text, folds, content, starts, own, stored)
}

// Any of them.
pub fn tabled(k: Head, text: &[u32], folds: &[u32], list: &[u32], stored: &[u32]) -> Verdict
    ensures { result ≡ tabled_verdict k text.now folds.now
        list.now stored.now }
{
    if k.op == 0 {
        return fill(text, list, stored);
    }
    let end = list.len();
    if end < 2 {
        return Verdict::Malformed;
    }
    let own = 2 + list[1] as usize;
    if own > end {
        return Verdict::Malformed;
    }
    by_parts(
        k,
        text,
        folds,
        list[0],
        &list[2..own],
        &list[own..end],
        stored,
    )
}
