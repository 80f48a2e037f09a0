// The table of a Vim list, and the test of one character by it or by the list.
ghost use Rattle.std.specs.Prelude.{◌≡◌, [], ◌≤◌};
ghost use Rattle.vim_grammar.specs.Tokens.{in_vim};
ghost use Rattle.vim_reader.specs.Table.{table, kept, refused_at, read_all, read_of};
ghost use Rattle.vim_reader.specs.Table.{matches_of, tested_of};

use crate::{State, VimMatched, VimRead, VimSpec, VimTested};

impl VimSpec {
    // The table of no tokens.
    pub fn new() -> VimSpec
        ensures { result ≡ table [] }
    {
        VimSpec {
            tokens: [vim_grammar::EMPTY; 128],
            len: 0,
        }
    }

    // The table of a list; refuses 7, then 17 with its place, then 8.
    pub fn parse(list: &[u32]) -> VimRead
        ensures { result ≡ read_of list.now }
    {
        if list_parts::refused_list(list) != 0 {
            return refused_at(7, 0);
        }
        read_all(list)
    }

    // What the last token that speaks of c says; no where none does.
    fn holds(self, c: u32) -> bool
        requires { self.len ≤ 128 }
        ensures { result ≡ in_vim (kept self) c }
    {
        let letter = letters::is_letter(c);
        let mut is = false;
        for t in &self.tokens[..self.len] {
            if t.speaks(letter, c) {
                is = !t.out;
            }
        }
        is
    }

    // Whether c is a keyword character by the table; refuses 2, then 8.
    pub fn matches(self, c: u32) -> VimMatched
        ensures { result ≡ matches_of self c }
    {
        let n = list_parts::refused_char(c);
        if n != 0 {
            return VimMatched::Refused(n);
        }
        if 128 < self.len {
            return VimMatched::Refused(8);
        }
        VimMatched::Is(self.holds(c))
    }
}

// A refusal and its place, with the empty table in the table's place.
fn refused_at(n: u32, place: usize) -> VimRead
    ensures { result ≡ refused_at n place }
{
    let spec = VimSpec::new();
    VimRead {
        refusal: n,
        place: place,
        spec,
    }
}

// The table of a list that is not refused with 7, in one pass; refuses 17 with its place, then 8.
fn read_all(list: &[u32]) -> VimRead
    ensures { result ≡ read_all list.now }
{
    let mut spec = VimSpec::new();
    let mut n: usize = 0;
    let mut state = State::Start;
    for (i, x) in list.iter().enumerate() {
        let next = crate::machine::step(state, *x);
        let p = crate::machine::phase(next);
        if p == 0 {
            return refused_at(17, i);
        }
        if p == 1 {
            if n < 128 {
                spec.tokens[n] = crate::machine::token_of(state);
                spec.len = n + 1;
            }
            n += 1;
        }
        state = next;
    }
    if !crate::machine::may_end(state) {
        return refused_at(17, list.len());
    }
    if crate::machine::phase(state) == 2 {
        return VimRead {
            refusal: 0,
            place: 0,
            spec,
        };
    }
    if 128 <= n {
        return refused_at(8, 0);
    }
    spec.tokens[n] = crate::machine::token_of(state);
    spec.len = n + 1;
    VimRead {
        refusal: 0,
        place: 0,
        spec,
    }
}

// Whether c is a keyword character by the list; refuses 2, then 7, 17 with its place, 8.
pub fn is_vim_char(c: u32, list: &[u32]) -> VimTested
    ensures { result ≡ tested_of c list.now }
{
    let n = list_parts::refused_char(c);
    if n != 0 {
        return VimTested::Refused(n);
    }
    let read = VimSpec::parse(list);
    if read.refusal == 17 {
        return VimTested::Bad(read.place);
    }
    if read.refusal != 0 {
        return VimTested::Refused(read.refusal);
    }
    let spec = read.spec;
    VimTested::Is(spec.holds(c))
}
