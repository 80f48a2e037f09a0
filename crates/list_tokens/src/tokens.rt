// Tokens: what one part of a list is, and what a token holds. The given `Token`.
ghost use Rattle.std.specs.Prelude.{◌≡◌, ◌≤◌, length};
ghost use Rattle.letters.specs.Letters.{is_letter};
ghost use Rattle.list_tokens.specs.Grammar.{codes, is_at, single, code_of, range_of, token_of};
ghost use Rattle.list_tokens.specs.Tokens.{token_holds, low_of, high_of, step_of};

use crate::Token;

// `,`, `-` and `@`.
const COMMA: u32 = 44;

const MINUS: u32 = 45;

const AT: u32 = 64;

// No token: what every place of a new table holds.
pub const EMPTY: Token = Token {
    kind: 0,
    lo: 0,
    hi: 0,
};

impl Token {
    // Whether the token holds c, of which the caller says if it is a letter.
    pub fn holds(self, letter: bool, c: u32) -> bool
        requires { letter ≡ is_letter c }
        ensures { result ≡ token_holds self c }
    {
        if self.kind == 1 {
            return letter;
        }
        if self.kind != 2 {
            return false;
        }
        if c < self.lo {
            return false;
        }
        c <= self.hi
    }

    // The first code of a range; 1 for a token that is none.
    pub fn low(self) -> u32
        ensures { result ≡ low_of self }
    {
        if self.kind == 2 {
            return self.lo;
        }
        1
    }

    // The last code of a range; 0 for a token that is none.
    pub fn high(self) -> u32
        ensures { result ≡ high_of self }
    {
        if self.kind == 2 {
            return self.hi;
        }
        0
    }
}

// The codes from lo to hi; a range that falls holds nothing.
fn range(lo: u32, hi: u32) -> Token
    ensures { result ≡ codes lo hi }
{
    Token {
        kind: 2,
        lo: lo,
        hi: hi,
    }
}

// A part of one character is that character; else nothing.
fn single_of(p: &[u32]) -> Token
    ensures { result ≡ single p.now }
{
    if p.len() != 1 {
        return EMPTY;
    }
    let x = p[0];
    range(x, x)
}

// A number is that code; else one character is itself.
fn code_of(p: &[u32]) -> Token
    ensures { result ≡ code_of p.now }
{
    match list_parts::read_number(p) {
        Some(n) => range(n, n),
        None => single_of(p),
    }
}

// A number before the first `-` and one after it are a range; else nothing.
fn range_of(p: &[u32]) -> Token
    ensures { result ≡ range_of p.now }
{
    let d = list_parts::find(p, 0, MINUS);
    if d >= p.len() {
        return EMPTY;
    }
    let e = d + 1;
    match list_parts::read_number(&p[..d]) {
        Some(lo) => match list_parts::read_number(&p[e..]) {
            Some(hi) => range(lo, hi),
            None => EMPTY,
        },
        None => EMPTY,
    }
}

// Whether the part is `@`.
fn is_at(p: &[u32]) -> bool
    ensures { result ≡ is_at p.now }
{
    if p.len() != 1 {
        return false;
    }
    p[0] == AT
}

// The token that a trimmed part is: the first that fits, or EMPTY.
fn token_of(p: &[u32]) -> Token
    ensures { result ≡ token_of p.now }
{
    if is_at(p) {
        return Token {
            kind: 1,
            lo: 0,
            hi: 0,
        };
    }
    let t = range_of(p);
    if t.kind != 0 {
        return t;
    }
    code_of(p)
}

// A part's token, and where the next part begins (past the list's end if there is none).
#[derive(Clone, Copy)]
pub struct Step {
    pub token: Token,
    pub next: usize,
}

// The part of the list that begins at `from`.
pub fn read_part(list: &[u32], from: usize) -> Step
    requires { from ≤ length list.now }
    ensures { result ≡ step_of list.now from }
{
    let e = list_parts::find(list, from, COMMA);
    let t = token_of(list_parts::trimmed(&list[from..e]));
    Step {
        token: t,
        next: e + 1,
    }
}
