// The fill of a table.
ghost use Rattle.std.specs.Prelude.{◌≡◌};
ghost use Rattle.replay_verdicts.specs.Answers.{compared as compared_of};
ghost use Rattle.replay_tables.specs.Tables.{filled_into, fill_verdict};

use replay_edits::put_all;
use replay_verdicts::{FILLER, Verdict, compared_two};

// Into these places.
fn fill_into(text: &[u32], table: &mut [u32], stored: &[u32]) -> Verdict
    ensures { result ≡ compared_of (filled_into text.now table.old)
        stored.now }
{
    let mut out = [FILLER; 1];
    let n = call_row_table::row_starts(text, table, &mut out);
    compared_two(n, out[0], table, stored)
}

// Of at most 64 places.
pub(crate) fn fill(text: &[u32], table: &[u32], stored: &[u32]) -> Verdict
    ensures { result ≡ fill_verdict text.now table.now
        stored.now }
{
    let n = table.len();
    if n > 64 {
        return Verdict::Malformed;
    }
    let mut places = [0u32; 64];
    put_all(&mut places, 0, table);
    fill_into(text, &mut places[..n], stored)
}
