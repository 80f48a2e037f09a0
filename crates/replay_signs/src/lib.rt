// The calls on keyword lists where plus signs are retired, on the numbers of a case, each compared
// with the stored answer.

#![tactic(auto)]

ghost use Rattle.std.specs.Prelude.{◌≡◌};
ghost use Rattle.replay_verdicts.specs.Answers.{compared as compared_of};
ghost use Rattle.replay_signs.specs.Signs.{entered_of, plain_into, plain_verdict};

use replay_rows::Head;
use replay_verdicts::{FILLER, Verdict, compared_two};

// The number, the place and the answer.
pub fn enter(k: Head, list: &[u32], stored: &[u32]) -> Verdict
    ensures { result ≡ compared_of (entered_of k list.now)
        stored.now }
{
    let mut out = [FILLER; 1];
    let told = call_signs::enter(k.op, list, k.a, &mut out);
    compared_two(
        (told % 4294967296) as u32,
        (told / 4294967296) as u32,
        &out,
        stored,
    )
}

// The number, the count and the places lent for the list.
fn plain_into(list: &[u32], written: &mut [u32], stored: &[u32]) -> Verdict
    ensures { result ≡ compared_of (plain_into list.now written.old)
        stored.now }
{
    let mut out = [FILLER; 1];
    let n = call_signs::without_plus(list, written, &mut out);
    compared_two(n, out[0], written, stored)
}

// Into a places, at most 64.
pub fn without_plus(k: Head, list: &[u32], stored: &[u32]) -> Verdict
    ensures { result ≡ plain_verdict k list.now stored.now }
{
    let room = k.a as usize;
    if room > 64 {
        return Verdict::Malformed;
    }
    let mut written = [FILLER; 64];
    plain_into(list, &mut written[..room], stored)
}
