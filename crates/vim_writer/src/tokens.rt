// One token written, and how many code points that takes.
ghost use Rattle.std.specs.Prelude.{◌≡◌, ◌+◌, ◌≤◌, length};
ghost use Rattle.print.specs.Print.{Wrote};
ghost use Rattle.vim_writer.specs.Written.{end_text, item_text, token_text};

use vim_grammar::VimToken;

// `-`, `@` and `^`.
const MINUS: u32 = 45;

const AT: u32 = 64;

const CARET: u32 = 94;

// How long an end is.
fn end_size(char: bool, c: u32) -> usize
    ensures { result ≡ length (end_text char c) }
{
    if char {
        return 1;
    }
    crate::points::number_size(c)
}

// Writes an end: the character itself, or the number.
fn put_end(out: &mut [u32], at: usize, char: bool, c: u32) -> usize
    requires { at + length (end_text char c) ≤ length out.old }
    ensures { Wrote out.old at (end_text char c) result out.new }
{
    if char {
        return print::put(out, at, c);
    }
    crate::points::put_number(out, at, c)
}

// How long a token is without its `^`.
fn item_size(t: VimToken) -> usize
    ensures { result ≡ length (item_text t) }
{
    if t.kind == 0 {
        return 0;
    }
    if t.kind == 1 {
        return 1;
    }
    if t.kind == 2 {
        return end_size(t.lochar, t.lo);
    }
    let n = end_size(t.lochar, t.lo);
    let m = end_size(t.hichar, t.hi);
    n + 1 + m
}

// Writes a token without its `^`.
fn put_item(out: &mut [u32], at: usize, t: VimToken) -> usize
    requires { at + length (item_text t) ≤ length out.old }
    ensures { Wrote out.old at (item_text t) result out.new }
{
    if t.kind == 0 {
        return at;
    }
    if t.kind == 1 {
        return print::put(out, at, AT);
    }
    if t.kind == 2 {
        return put_end(out, at, t.lochar, t.lo);
    }
    let dash = put_end(out, at, t.lochar, t.lo);
    let next = print::put(out, dash, MINUS);
    put_end(out, next, t.hichar, t.hi)
}

// How long a token is.
pub fn token_size(t: VimToken) -> usize
    ensures { result ≡ length (token_text t) }
{
    let n = item_size(t);
    if t.out {
        return n + 1;
    }
    n
}

// Writes a token.
pub fn put_token(out: &mut [u32], at: usize, t: VimToken) -> usize
    requires { at + length (token_text t) ≤ length out.old }
    ensures { Wrote out.old at (token_text t) result out.new }
{
    if t.out {
        let next = print::put(out, at, CARET);
        return put_item(out, next, t);
    }
    put_item(out, at, t)
}
