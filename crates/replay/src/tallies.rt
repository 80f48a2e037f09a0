// The verdicts of a list of cases, counted.
ghost use Rattle.std.specs.Prelude.{◌≡◌};
ghost use Rattle.replay.specs.Tallies.{tally_of, Judged};

use crate::cases::verdict_of;
use replay_rows::{read_row, row_end};
use replay_verdicts::{Tally, Verdict};

// The verdict of one row, whose numbers are put into `room`.
fn row_verdict(row: &[u8], room: &mut [u32]) -> Verdict
    ensures { Judged row.now room.old result room.new }
{
    match read_row(row, room) {
        Some(n) => verdict_of(&room[..n]),
        None => Verdict::Malformed,
    }
}

// The verdicts of all rows. A `while`: the step differs from turn to turn.
pub fn tally_of(bytes: &[u8]) -> Tally
    ensures { result ≡ tally_of bytes.now }
{
    // A text one over its limit, and what stands beside it in a row.
    let mut room = [0u32; 1048832];
    let mut t = Tally {
        cases: 0,
        agree: 0,
        first: 0,
        malformed: false,
    };
    let mut at: usize = 0;
    while at < bytes.len() {
        let end = row_end(bytes, at);
        let v = row_verdict(&bytes[at..end], &mut room);
        t = t.counted(v);
        at = end;
    }
    t
}
