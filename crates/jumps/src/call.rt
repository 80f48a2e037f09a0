// The call: its refusals, the loop, and the caret at the end.
ghost use Rattle.std.specs.Prelude.{◌≡◌, false};
ghost use Rattle.text.specs.Text.{row_count};
ghost use Rattle.list_tokens.specs.Tokens.{any_token};
ghost use Rattle.keywords.specs.Table.{kept};
ghost use Rattle.word_kinds.specs.Places.{kind_of};
ghost use Rattle.word_kinds.specs.Spots.{place_of};
ghost use Rattle.motions.specs.Carets.{put};
ghost use Rattle.jumps.specs.Leaps.{RanFrom};
ghost use Rattle.jumps.specs.Footings.{TabledSpot, CaretFooting};
ghost use Rattle.jumps.specs.Jumps.{kind_refusal, late_refusal, JumpsTo};
ghost use Rattle.jumps.specs.Jumps.{answer_refusal as answer_refusal_of};

use crate::leaps::start_of;
use crate::run::run_by;
use keywords::KeywordSpec;
use motions::{Caret, Moved};
use positions::Entry;
use word_kinds::Spot;

// 22 where the list has an odd length, or a kind above 3 anywhere.
fn kind_refusal(jumps: &[u32]) -> u32
    ensures { result ≡ kind_refusal jumps.now }
{
    let n = jumps.len();
    for i in (0..n).step_by(2) {
        if i + 1 == n {
            return 22;
        }
        if jumps[i] > 3 {
            return 22;
        }
    }
    0
}

// 14 where there are fewer than two places for the answers of each jump.
fn answer_refusal(jumps: &[u32], places: usize) -> u32
    ensures { result ≡ answer_refusal_of jumps.now places }
{
    if places < jumps.len() {
        return 14;
    }
    0
}

// What is checked after text, caret, folds and keyword list: the table (15, 16), the kinds (22),
// the places (14).
fn late_refusal(
    t: &[u32],
    rows: usize,
    starts: &[u32],
    content: u32,
    jumps: &[u32],
    places: usize,
) -> u32
    requires { rows ≡ row_count t.now }
    ensures { result ≡ late_refusal t.now starts.now content
        jumps.now places }
{
    let g = row_table::check::table_refusal(t, rows, rows, starts, content);
    if g != 0 {
        return g;
    }
    let h = kind_refusal(jumps);
    if h != 0 {
        return h;
    }
    answer_refusal(jumps, places)
}

// The caret at a spot, by the table: the sticky column is the caret's that came.
fn caret_of(k: Caret, t: &[u32], table: &[u32], r: Spot) -> Caret
    requires { TabledSpot t.now table.now r }
    ensures { result ≡ put k (place_of t.now r) }
{
    let start = start_of(t, table, r.row);
    let sticky = k.sticky;
    Caret::at(r.row as u32, (r.at - start) as u32, sticky)
}

// The caret at the end of jumps that nothing refuses.
fn to_end(
    k: Caret,
    t: &[u32],
    starts: &[u32],
    folds: &[u32],
    spec: KeywordSpec,
    e: Entry,
    jumps: &[u32],
    answers: &mut [u32],
) -> Caret
    requires { CaretFooting t.now starts.now folds.now spec k e jumps.now
        answers.old }
    ensures { RanFrom t.now folds.now
        (kind_of (any_token (kept spec)) false) jumps.now answers.old k result
        answers.new }
{
    let at = e.start + k.col as usize;
    let from = Spot {
        row: k.row as usize,
        at: at,
    };
    let r = run_by(
        t, starts, folds, spec, e.rows, e.content, jumps, answers, from,
    );
    caret_of(k, t, starts, r)
}

// Jumps, each from where the one before ended: `jumps` holds a kind (0 `w`, 1 `b`, 2 `e`, 3 `%`)
// and a count for each, `answers` takes a row and a column for each, and the caret at the end is
// answered. `starts` and `content` are the text's row starts and its number of rows with content.
// Refused are what a word motion with a table refuses (1 to 5, 7, 8, 15, 16), then a kind that is
// none or an odd length (22), then too few places for the answers (14); then nothing is written.
// Places behind the answers stay. A `%` that finds nothing stays where it is, and the run goes on.
pub fn jumps(
    k: Caret,
    t: &[u32],
    starts: &[u32],
    content: u32,
    folds: &[u32],
    list: &[u32],
    jumps: &[u32],
    answers: &mut [u32],
) -> Moved
    ensures { JumpsTo t.now starts.now content folds.now
        list.now k jumps.now answers.old result
        answers.new }
{
    let e = k.enter(t);
    let f = positions::or_folds(e, folds);
    if f != 0 {
        return Moved::Refused(f);
    }
    let p = KeywordSpec::parse(list);
    if p.refusal != 0 {
        return Moved::Refused(p.refusal);
    }
    let g = late_refusal(t, e.rows, starts, content, jumps, answers.len());
    if g != 0 {
        return Moved::Refused(g);
    }
    if jumps.len() == 0 {
        return Moved::To(k);
    }
    Moved::To(to_end(k, t, starts, folds, p.spec, e, jumps, answers))
}
