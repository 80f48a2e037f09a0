// The machine that reads a list: where one code point leads from a state, and what a state says.
// Long by its states: a function for each.
ghost use Rattle.std.specs.Prelude.{◌≡◌};
ghost use Rattle.lists.specs.Codes.{is_digit};
ghost use Rattle.vim_reader.specs.Machine.{most_of, first_of, start_of, behind, number_step};
ghost use Rattle.vim_reader.specs.Machine.{second_of, dash_step, second_step, step_of, token_of};
ghost use Rattle.vim_reader.specs.Machine.{done_step};
ghost use Rattle.vim_reader.specs.Machine.{phase_of, ends, sign_token};
ghost use Rattle.vim_grammar.specs.Tokens.{one, range};

use crate::{State, VimToken};

// `,`, `-`, `0`, `9`, `@` and `^`.
const COMMA: u32 = 44;

const MINUS: u32 = 45;

const ZERO: u32 = 48;

const NINE: u32 = 57;

const AT: u32 = 64;

const CARET: u32 = 94;

// The greatest number up to 255 whose digits begin with those of v, or may follow zeros.
fn most(v: u32) -> u32
    ensures { result ≡ most_of v }
{
    if v == 1 {
        return 199;
    }
    if v <= 2 {
        return 255;
    }
    if v <= 24 {
        return v * 10 + 9;
    }
    if v == 25 {
        return 255;
    }
    v
}

// Whether x is one of 0 to 9.
fn is_digit(x: u32) -> bool
    ensures { result ≡ is_digit x }
{
    if x < ZERO {
        return false;
    }
    x <= NINE
}

// The first code point of an item.
fn first(out: bool, x: u32) -> State
    ensures { result ≡ first_of out x }
{
    if is_digit(x) {
        return State::Number(out, x - ZERO);
    }
    if x <= 127 {
        return State::Sign(out, x);
    }
    State::Dead
}

// The first code point of a part.
fn start(x: u32) -> State
    ensures { result ≡ start_of x }
{
    if x == CARET {
        return State::Caret;
    }
    first(false, x)
}

// Behind the first end of a part: a comma or a minus.
fn after_end(out: bool, sign: bool, lo: u32, x: u32) -> State
    ensures { result ≡ behind out sign lo x }
{
    if x == COMMA {
        return State::Part;
    }
    if x == MINUS {
        return State::Dash(out, sign, lo);
    }
    State::Dead
}

// In the first number of a part.
fn in_number(out: bool, v: u32, x: u32) -> State
    ensures { result ≡ number_step out v x }
{
    if !is_digit(x) {
        return after_end(out, false, v, x);
    }
    if 25 < v {
        return State::Dead;
    }
    let w = v * 10 + (x - ZERO);
    if 255 < w {
        return State::Dead;
    }
    State::Number(out, w)
}

// A second number that has come to v: some digits must lead it to `lo` or above.
fn second(out: bool, sign: bool, lo: u32, v: u32) -> State
    ensures { result ≡ second_of out sign lo v }
{
    if 255 < v {
        return State::Dead;
    }
    if most(v) < lo {
        return State::Dead;
    }
    State::Second(out, sign, lo, v)
}

// Behind the minus of a range.
fn after_dash(out: bool, sign: bool, lo: u32, x: u32) -> State
    ensures { result ≡ dash_step out sign lo x }
{
    if is_digit(x) {
        return second(out, sign, lo, x - ZERO);
    }
    if x < lo {
        return State::Dead;
    }
    if 127 < x {
        return State::Dead;
    }
    State::Done(out, sign, lo, x)
}

// In the second number of a range.
fn in_second(out: bool, sign: bool, lo: u32, v: u32, x: u32) -> State
    ensures { result ≡ second_step out sign lo v x }
{
    if is_digit(x) {
        if 25 < v {
            return State::Dead;
        }
        return second(out, sign, lo, v * 10 + (x - ZERO));
    }
    if x != COMMA {
        return State::Dead;
    }
    if v < lo {
        return State::Dead;
    }
    State::Part
}

// Behind a range that ends with a character.
fn after_range(x: u32) -> State
    ensures { result ≡ done_step x }
{
    if x == COMMA {
        return State::Part;
    }
    State::Dead
}

// Where one code point leads.
pub fn step(state: State, x: u32) -> State
    ensures { result ≡ step_of state x }
{
    match state {
        State::Start => start(x),
        State::Part => start(x),
        State::Caret => first(true, x),
        State::Number(out, v) => in_number(out, v, x),
        State::Sign(out, c) => after_end(out, true, c, x),
        State::Dash(out, sign, lo) => after_dash(out, sign, lo, x),
        State::Second(out, sign, lo, v) => in_second(out, sign, lo, v, x),
        State::Done(_, _, _, _) => after_range(x),
        State::Dead => State::Dead,
    }
}

// What a state says: 0 where no list goes on so, 1 behind a comma, 2 where nothing was read, 3
// within a part.
pub fn phase(state: State) -> u32
    ensures { result ≡ phase_of state }
{
    match state {
        State::Start => 2,
        State::Part => 1,
        State::Caret => 3,
        State::Number(_, _) => 3,
        State::Sign(_, _) => 3,
        State::Dash(_, _, _) => 3,
        State::Second(_, _, _, _) => 3,
        State::Done(_, _, _, _) => 3,
        State::Dead => 0,
    }
}

// Whether the list may end here.
pub fn may_end(state: State) -> bool
    ensures { result ≡ ends state }
{
    match state {
        State::Start => true,
        State::Part => false,
        State::Caret => true,
        State::Number(_, _) => true,
        State::Sign(_, _) => true,
        State::Dash(_, _, _) => false,
        State::Second(_, _, lo, v) => lo <= v,
        State::Done(_, _, _, _) => true,
        State::Dead => false,
    }
}

// One code.
fn one_of(out: bool, sign: bool, c: u32) -> VimToken
    ensures { result ≡ one out sign c }
{
    VimToken {
        out: out,
        kind: 2,
        lochar: sign,
        lo: c,
        hichar: sign,
        hi: c,
    }
}

// A range.
fn range_of(out: bool, losign: bool, lo: u32, hisign: bool, hi: u32) -> VimToken
    ensures { result ≡ range out losign lo hisign hi }
{
    VimToken {
        out: out,
        kind: 3,
        lochar: losign,
        lo: lo,
        hichar: hisign,
        hi: hi,
    }
}

// One character: `@` is every letter.
fn sign_of(out: bool, c: u32) -> VimToken
    ensures { result ≡ sign_token out c }
{
    if c == AT {
        return VimToken {
            out: out,
            kind: 1,
            lochar: false,
            lo: 0,
            hichar: false,
            hi: 0,
        };
    }
    one_of(out, true, c)
}

// The token of a part that ends here.
pub fn token_of(state: State) -> VimToken
    ensures { result ≡ token_of state }
{
    match state {
        State::Start => vim_grammar::EMPTY,
        State::Part => vim_grammar::EMPTY,
        State::Caret => one_of(false, true, CARET),
        State::Number(out, v) => one_of(out, false, v),
        State::Sign(out, c) => sign_of(out, c),
        State::Dash(_, _, _) => vim_grammar::EMPTY,
        State::Second(out, sign, lo, v) => range_of(out, sign, lo, false, v),
        State::Done(out, sign, lo, c) => range_of(out, sign, lo, true, c),
        State::Dead => vim_grammar::EMPTY,
    }
}
