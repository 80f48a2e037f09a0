// The calls on fold files on the numbers of a case, each compared with the stored answer: a byte is
// a number below 256 there. Places lent for bytes hold 165 before a call.

#![tactic(auto)]

ghost use Rattle.std.specs.Prelude.{◌≡◌, length};
ghost use Rattle.replay_verdicts.specs.Answers.{compared as compared_of};
ghost use Rattle.replay_fold_file.specs.FoldFiles.{written_into, write_verdict};
ghost use Rattle.replay_fold_file.specs.FoldFiles.{loaded_into, read_verdict, file_verdict};

use replay_codings::{narrow, widen};
use replay_rows::Head;
use replay_verdicts::{FILLER, Verdict, compared_two};

// The number, the count and the places lent for bytes.
fn write_into(
    text: &[u32],
    folds: &[u32],
    file: &mut [u8],
    numbers: &mut [u32],
    stored: &[u32],
) -> Verdict
    requires { length numbers.old ≡ length file.old }
    ensures { result ≡ compared_of (written_into text.now folds.now
        file.old) stored.now }
{
    let mut out = [FILLER; 1];
    let told = call_fold_file::folds_write(text, folds, file, &mut out);
    widen(file, numbers);
    compared_two(told, out[0], numbers, stored)
}

// Folds into a places for bytes, at most 2,560.
fn folds_write(k: Head, text: &[u32], folds: &[u32], stored: &[u32]) -> Verdict
    ensures { result ≡ write_verdict k text.now folds.now
        stored.now }
{
    let room = k.a as usize;
    if room > 2560 {
        return Verdict::Malformed;
    }
    let mut file = [165u8; 2560];
    let mut numbers = [0u32; 2560];
    write_into(text, folds, &mut file[..room], &mut numbers[..room], stored)
}

// The number, the count and the places lent for folds.
fn read_into(text: &[u32], file: &[u8], folds: &mut [u32], stored: &[u32]) -> Verdict
    ensures { result ≡ compared_of (loaded_into text.now file.now
        folds.old) stored.now }
{
    let mut out = [FILLER; 1];
    let told = call_fold_file::folds_read(text, file, folds, &mut out);
    compared_two(told, out[0], folds, stored)
}

// A file of at most 3,072 bytes into a places, at most 771.
fn folds_read(k: Head, text: &[u32], numbers: &[u32], stored: &[u32]) -> Verdict
    ensures { result ≡ read_verdict k text.now numbers.now
        stored.now }
{
    let n = numbers.len();
    let room = k.a as usize;
    if n > 3072 {
        return Verdict::Malformed;
    }
    if room > 771 {
        return Verdict::Malformed;
    }
    let mut file = [0u8; 3072];
    if !narrow(numbers, &mut file) {
        return Verdict::Malformed;
    }
    let mut folds = [FILLER; 771];
    read_into(text, &file[..n], &mut folds[..room], stored)
}

// Operation 0 writes the folds, and any other reads the list as a file.
pub fn fold_file(k: Head, text: &[u32], folds: &[u32], list: &[u32], stored: &[u32]) -> Verdict
    ensures { result ≡ file_verdict k text.now folds.now list.now
        stored.now }
{
    if k.op == 0 {
        return folds_write(k, text, folds, stored);
    }
    folds_read(k, text, list, stored)
}
