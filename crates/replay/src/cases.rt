// The verdict of a case, a row of numbers as `replay_rows` has it.
ghost use Rattle.std.specs.Prelude.{◌≡◌};
ghost use Rattle.replay.specs.Cases.{by_group, verdict_of};

use crate::calls;
use replay_rows::{Head, head_of};
use replay_verdicts::Verdict;

// The verdict by the group of calls.
fn by_group(
    group: u32,
    k: Head,
    text: &[u32],
    folds: &[u32],
    list: &[u32],
    stored: &[u32],
) -> Verdict
    ensures { result ≡ by_group group k text.now folds.now
        list.now stored.now }
{
    match group {
        0 => calls::character(k, stored),
        1 => calls::keywords(k, list, stored),
        2 => calls::columns(k, text, stored),
        3 => calls::offsets(k, text, stored),
        4 => calls::segment_for_col(k, list, stored),
        5 => calls::wrap_segments(k, text, stored),
        6 => calls::content_row_count(text, stored),
        7 => calls::matching_bracket_pos(k, text, stored),
        8 => calls::motion(k, text, stored),
        9 => calls::seek(k, text, stored),
        10 => calls::word(k, text, folds, list, stored),
        11 => calls::vertical(k, text, folds, stored),
        12 => calls::viewport(k, text, stored),
        13 => calls::inner_pair(k, text, stored),
        14 => replay_codings::utf8_decode(k, text, stored),
        15 => replay_codings::utf8_encode(k, text, stored),
        16 => replay_signs::enter(k, list, stored),
        17 => replay_signs::without_plus(k, list, stored),
        18 => calls::screen_kept(k, text, folds, list, stored),
        19 => replay_edits::edit(k, text, folds, list, stored),
        20 => replay_fold_file::fold_file(k, text, folds, list, stored),
        21 => replay_classes::by_class(k, text, folds, list, stored),
        22 => replay_tables::tabled(k, text, folds, list, stored),
        23 => replay_vim::vim(k, list, stored),
        24 => replay_jumps::jumped(k, text, folds, list, stored),
        25 => replay_vim::word_vim(k, text, folds, list, stored),
        _ => Verdict::Malformed,
    }
}

// The verdict of a case.
pub fn verdict_of(ns: &[u32]) -> Verdict
    ensures { result ≡ verdict_of ns.now }
{
    let end = ns.len();
    if end < 13 {
        return Verdict::Malformed;
    }
    let folds = 13 + ns[10] as usize;
    let list = folds + ns[11] as usize;
    let stored = list + ns[12] as usize;
    if stored > end {
        return Verdict::Malformed;
    }
    by_group(
        ns[0],
        head_of(ns),
        &ns[13..folds],
        &ns[folds..list],
        &ns[list..stored],
        &ns[stored..end],
    )
}
