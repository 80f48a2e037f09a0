// An answer against the stored one.
ghost use Rattle.std.specs.Prelude.{◌≡◌, ◌∷◌};
ghost use Rattle.replay_verdicts.specs.Answers.{compared as compared_of};

use crate::Verdict;

// What lent places hold before a call.
pub const FILLER: u32 = 2779096485;

// A number and what lent places hold, against the stored answer.
pub fn compared(number: u32, places: &[u32], stored: &[u32]) -> Verdict
    ensures { result ≡ compared_of (number ∷ places.now) stored.now }
{
    let n = stored.len();
    if n == 0 {
        return Verdict::Differs;
    }
    if stored[0] != number {
        return Verdict::Differs;
    }
    if places == &stored[1..n] {
        return Verdict::Agrees;
    }
    Verdict::Differs
}

// The same with two numbers in front.
pub fn compared_two(first: u32, second: u32, places: &[u32], stored: &[u32]) -> Verdict
    ensures { result ≡ compared_of (first ∷ second ∷ places.now)
        stored.now }
{
    let n = stored.len();
    if n == 0 {
        return Verdict::Differs;
    }
    if stored[0] != first {
        return Verdict::Differs;
    }
    compared(second, places, &stored[1..n])
}
