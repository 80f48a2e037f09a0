// Verdicts, counted.
ghost use Rattle.std.specs.Prelude.{◌≡◌};
ghost use Rattle.replay_verdicts.specs.Tallies.{Countable};
ghost use Rattle.replay_verdicts.specs.Tallies.{counted as counted_of};
ghost use Rattle.replay_verdicts.specs.Tallies.{faulted as faulted_of};

use crate::{Tally, Verdict};

impl Tally {
    // One verdict more.
    pub fn counted(self, v: Verdict) -> Tally
        requires { Countable self }
        ensures { result ≡ counted_of self v }
    {
        match v {
            Verdict::Agrees => Tally {
                cases: self.cases + 1,
                agree: self.agree + 1,
                first: self.first,
                malformed: self.malformed,
            },
            Verdict::Differs => self.faulted(false),
            Verdict::Malformed => self.faulted(true),
        }
    }

    // One case more that doesn't agree; the first such is kept.
    fn faulted(self, malformed: bool) -> Tally
        requires { Countable self }
        ensures { result ≡ faulted_of self malformed }
    {
        let n = self.cases + 1;
        if self.first == 0 {
            return Tally {
                cases: n,
                agree: self.agree,
                first: n,
                malformed: malformed,
            };
        }
        Tally {
            cases: n,
            agree: self.agree,
            first: self.first,
            malformed: self.malformed,
        }
    }
}
