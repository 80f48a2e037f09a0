// `%`, and `f`, `F`, `t`, `T`: motions.rs, "Find / match".
ghost use Rattle.std.specs.Prelude.{◌≡◌};
ghost use Rattle.text.specs.Text.{row_at};
ghost use Rattle.row_search.specs.Find.{find_on_row};
ghost use Rattle.brackets.specs.Find.{key_from};
ghost use Rattle.positions.specs.Positions.{Accepted};
ghost use Rattle.motions.specs.Carets.{here};
ghost use Rattle.motions.specs.Finds.{partner_to, lands_on, match_bracket, find_char_on_line};
ghost use Rattle.motions.specs.Ready.{KeyReady};

use crate::{Caret, Move, Sought};
use bracket_walks::Partner;
use positions::Entry;
use text::Line;

impl Caret {
    // What `%` finds, of a text and caret that were accepted.
    pub(crate) fn to_partner(self, t: &[u32], e: Entry) -> Sought
        requires { KeyReady t.now self e }
        ensures { result ≡ partner_to self
            (key_from t.now self.row self.col) }
    {
        let l = Line {
            row: self.row as usize,
            start: e.start,
        };
        match brackets::matching::match_bracket_from(t, l, self.col as usize) {
            Partner::There(q) => Sought::Found(self.placed(q.row, q.col)),
            Partner::None => Sought::Missing(self.cleared()),
            Partner::Refused(f) => Sought::Refused(f),
        }
    }

    // What a find within the row finds, likewise.
    pub(crate) fn to_char(
        self,
        t: &[u32],
        e: Entry,
        x: u32,
        forward: bool,
        till: bool,
        skip: bool,
    ) -> Sought
        requires { Accepted t.now (here self) e }
        ensures { result ≡ lands_on self
            (find_on_row (row_at t.now self.row) self.col x forward till skip) }
    {
        let l = Line {
            row: self.row as usize,
            start: e.start,
        };
        let row = text::offsets::row(t, l);
        let col = self.col as usize;
        match row_search::find_on_row(row, col, x, forward, till, skip) {
            Some(i) => Sought::Found(self.placed(self.row as usize, i)),
            None => Sought::Missing(self.cleared()),
        }
    }

    // `%`: to the partner of the first round, square or curly bracket at or after the caret in its
    // row. Missing where there is no such bracket, or the first has no partner.
    pub fn match_bracket(self, t: &[u32]) -> Sought
        ensures { result ≡ match_bracket t.now self }
    {
        let none = &t[..0];
        self.go(t, none, none, 0, Move::Bracket, 1)
    }

    // `f`, `F`, `t`, `T`: to the next x in the caret's row, or the one before it; with `till` one
    // place short of it, and with `skip` (the Rust's `skip_adjacent`) past one that is adjacent. A
    // till that stays has found it all the same.
    pub fn find_char_on_line(
        self,
        t: &[u32],
        x: u32,
        forward: bool,
        till: bool,
        skip: bool,
    ) -> Sought
        ensures { result ≡ find_char_on_line t.now x forward till skip self }
    {
        let none = &t[..0];
        let m = Move::Find {
            x: x,
            forward: forward,
            till: till,
            skip: skip,
        };
        self.go(t, none, none, 0, m, 1)
    }
}
