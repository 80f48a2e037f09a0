// The token table, and the test of one character by it or by the list. The given `KeywordSpec` and
// `is_keyword_char`.
ghost use Rattle.std.specs.Prelude.{◌≡◌, [], ◌≤◌};
ghost use Rattle.list_tokens.specs.Tokens.{any_token, in_list};
ghost use Rattle.keywords.specs.Table.{table, kept, refused_by, read_all, parse_of};
ghost use Rattle.keywords.specs.Table.{matches_of, keyword_char};

use crate::{KeywordSpec, Matched, Parsed};

impl KeywordSpec {
    // The table of no tokens.
    pub fn new() -> KeywordSpec
        ensures { result ≡ table [] }
    {
        KeywordSpec {
            tokens: [list_tokens::EMPTY; 128],
            len: 0,
        }
    }

    // The table of a list; refuses 7, then 8.
    pub fn parse(list: &[u32]) -> Parsed
        ensures { result ≡ parse_of list.now }
    {
        let n = list_parts::refused_list(list);
        if n != 0 {
            return refused(n);
        }
        read_all(list)
    }

    // Whether one of the table's tokens holds c.
    fn any_holds(self, c: u32) -> bool
        requires { self.len ≤ 128 }
        ensures { result ≡ any_token (kept self) c }
    {
        let letter = letters::is_letter(c);
        for t in &self.tokens[..self.len] {
            if t.holds(letter, c) {
                return true;
            }
        }
        false
    }

    // Whether c is a keyword character by the table; refuses 2, then 8.
    pub fn matches(self, c: u32) -> Matched
        ensures { result ≡ matches_of self c }
    {
        let n = list_parts::refused_char(c);
        if n != 0 {
            return Matched::Refused(n);
        }
        if 128 < self.len {
            return Matched::Refused(8);
        }
        Matched::Is(self.any_holds(c))
    }
}

// A refusal, with the empty table in the table's place.
fn refused(n: u32) -> Parsed
    ensures { result ≡ refused_by n }
{
    let spec = KeywordSpec::new();
    Parsed { refusal: n, spec }
}

// The table of an accepted list; refuses 8.
fn read_all(list: &[u32]) -> Parsed
    ensures { result ≡ read_all list.now }
{
    let mut spec = KeywordSpec::new();
    let mut from: usize = 0;
    // A `while`: it goes on by a part and its comma.
    while from <= list.len() {
        let step = list_tokens::read_part(list, from);
        let t = step.token;
        if t.kind == 0 {
            from = step.next;
        } else {
            if spec.len == 128 {
                return refused(8);
            }
            let n = spec.len;
            spec.tokens[n] = t;
            spec.len = n + 1;
            from = step.next;
        }
    }
    Parsed { refusal: 0, spec }
}

// Whether a token of the list holds c, without a table.
fn list_holds(list: &[u32], c: u32) -> bool
    ensures { result ≡ in_list list.now c }
{
    let letter = letters::is_letter(c);
    let mut from: usize = 0;
    // A `while`: it goes on by a part and its comma.
    while from <= list.len() {
        let step = list_tokens::read_part(list, from);
        let t = step.token;
        if t.holds(letter, c) {
            return true;
        }
        from = step.next;
    }
    false
}

// Whether c is a keyword character by the list, which is read directly; refuses 2, then 7.
pub fn is_keyword_char(c: u32, list: &[u32]) -> Matched
    ensures { result ≡ keyword_char c list.now }
{
    let n = list_parts::refused_char(c);
    if n != 0 {
        return Matched::Refused(n);
    }
    let m = list_parts::refused_list(list);
    if m != 0 {
        return Matched::Refused(m);
    }
    Matched::Is(list_holds(list, c))
}
