// The calls on Vim's own lists, on the numbers of a case, each compared with the stored answer.

#![tactic(auto)]

ghost use Rattle.std.specs.Prelude.{◌≡◌};
ghost use Rattle.replay_verdicts.specs.Answers.{compared as compared_of};
ghost use Rattle.replay_vim.specs.Vim.{vim_list_of, vim_into, vim_write_verdict, vim_verdict};
ghost use Rattle.replay_vim.specs.Vim.{vim_word_of};

use replay_codings::compared_three;
use replay_rows::Head;
use replay_verdicts::{FILLER, Verdict, compared_two};

// The number, the place and the answer.
fn vim_list(k: Head, list: &[u32], stored: &[u32]) -> Verdict
    ensures { result ≡ compared_of (vim_list_of k list.now)
        stored.now }
{
    let mut out = [FILLER; 1];
    let told = call_vim::vim_list(k.op, list, k.a, &mut out);
    compared_two(
        (told % 4294967296) as u32,
        (told / 4294967296) as u32,
        &out,
        stored,
    )
}

// The number, the place, the count and the places lent for the list.
fn write_into(list: &[u32], written: &mut [u32], stored: &[u32]) -> Verdict
    ensures { result ≡ compared_of (vim_into list.now written.old)
        stored.now }
{
    let mut out = [FILLER; 1];
    let told = call_vim::vim_write(list, written, &mut out);
    compared_three(
        (told % 4294967296) as u32,
        (told / 4294967296) as u32,
        out[0],
        written,
        stored,
    )
}

// Into a places, at most 64.
fn vim_write(k: Head, list: &[u32], stored: &[u32]) -> Verdict
    ensures { result ≡ vim_write_verdict k list.now stored.now }
{
    let room = k.a as usize;
    if room > 64 {
        return Verdict::Malformed;
    }
    let mut written = [FILLER; 64];
    write_into(list, &mut written[..room], stored)
}

// A list read, a character by it, or by the number 2 a list read and written again.
pub fn vim(k: Head, list: &[u32], stored: &[u32]) -> Verdict
    ensures { result ≡ vim_verdict k list.now stored.now }
{
    if k.op == 2 {
        return vim_write(k, list, stored);
    }
    vim_list(k, list, stored)
}

// A word motion by the count e, of big words where f is not 0: the number, the place and the caret.
pub fn word_vim(k: Head, text: &[u32], folds: &[u32], list: &[u32], stored: &[u32]) -> Verdict
    ensures { result ≡ compared_of (vim_word_of k text.now folds.now
        list.now) stored.now }
{
    let mut out = [FILLER; 4];
    let told = call_vim_words::word_vim(
        k.op, text, folds, list, k.a, k.b, k.c, k.d, k.f, k.e, &mut out,
    );
    compared_two(
        (told % 4294967296) as u32,
        (told / 4294967296) as u32,
        &out,
        stored,
    )
}
