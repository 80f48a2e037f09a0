// What an input prints. Its first row is `w` and folds, three numbers each, or `r` and how many
// bytes of a fold file follow it; then come those bytes, and the text, UTF-8. `w` prints the file
// of the folds, and `r` the row that `w` takes for the folds of the file. A refusal prints `!` and
// its number, and an input that is none of this `refused`.
ghost use Rattle.std.specs.Prelude.{◌≡◌, length};
ghost use Rattle.print.specs.Print.{Wrote};
ghost use Rattle.fold_trial.specs.Runs.{unread, refusal_row, fold_row, file_shown, folds_shown};
ghost use Rattle.fold_trial.specs.Runs.{store_in, load_in, by_key, run_of, Prints, FoldRoom, InputRoom};

use fold_reader::Loaded;
use fold_writer::Written;
use print::{put, put_bytes, put_decimal};

// What an input prints that can't be read.
fn not_read(out: &mut [u8]) -> usize
    requires { length out.old ≡ 8450 }
    ensures { Wrote out.old 0 unread result out.new }
{
    put_bytes(out, 0, b"refused\n")
}

// A refusal.
fn refuse(out: &mut [u8], f: u32) -> usize
    requires { length out.old ≡ 8450 }
    ensures { Wrote out.old 0 (refusal_row f) result out.new }
{
    let a = put(out, 0, b'!');
    let b = put_decimal(out, a, f);
    put(out, b, b'\n')
}

// The row of folds: `w`, and each number behind a space.
fn put_folds(out: &mut [u8], folds: &[u32]) -> usize
    requires { FoldRoom folds.now out.old }
    ensures { Wrote out.old 0 (fold_row folds.now) result
        out.new }
{
    let mut at = put(out, 0, b'w');
    for x in folds {
        let next = put(out, at, b' ');
        at = put_decimal(out, next, *x);
    }
    put(out, at, b'\n')
}

// The file of folds over a text.
fn store(text: &[u32], folds: &[u32], out: &mut [u8]) -> usize
    requires { length out.old ≡ 8450 }
    ensures { Prints (file_shown text.now folds.now) result
        out.new }
{
    match fold_writer::write_folds(text, folds, out) {
        Written::Bytes(n) => n,
        Written::Refused(f) => refuse(out, f),
    }
}

// The folds of a file over a text.
fn load(text: &[u32], file: &[u8], out: &mut [u8]) -> usize
    requires { length out.old ≡ 8450 }
    ensures { Prints (folds_shown text.now file.now) result
        out.new }
{
    let mut folds = [0u32; 768];
    match fold_reader::read_folds(text, file, &mut folds) {
        Loaded::Folds(n) => {
            let end = 3 * n;
            put_folds(out, &folds[..end])
        }
        Loaded::Refused(f) => refuse(out, f),
    }
}

// The file of folds over a text in UTF-8.
fn store_in(bytes: &[u8], folds: &[u32], out: &mut [u8]) -> usize
    requires { InputRoom bytes.now out.old }
    ensures { Prints (store_in bytes.now folds.now) result
        out.new }
{
    if utf8::check(bytes).is_err() {
        return not_read(out);
    }
    let mut room = [0u32; 32768];
    let n = session_input::read_text(bytes, 0, &mut room);
    store(&room[..n], folds, out)
}

// The folds of a file of n bytes over the text in UTF-8 behind it.
fn load_in(bytes: &[u8], n: usize, out: &mut [u8]) -> usize
    requires { InputRoom bytes.now out.old }
    ensures { Prints (load_in n bytes.now) result out.new }
{
    if n > bytes.len() {
        return not_read(out);
    }
    if utf8::check(&bytes[n..]).is_err() {
        return not_read(out);
    }
    let mut room = [0u32; 32768];
    let m = session_input::read_text(bytes, n, &mut room);
    load(&room[..m], &bytes[..n], out)
}

// By the first byte of an input, the numbers of its first row, and what stands behind that.
fn by_key(key: u8, numbers: &[u32], bytes: &[u8], out: &mut [u8]) -> usize
    requires { InputRoom bytes.now out.old }
    ensures { Prints (by_key key numbers.now bytes.now) result
        out.new }
{
    if key == 119 {
        return store_in(bytes, numbers, out);
    }
    if key != 114 {
        return not_read(out);
    }
    if numbers.len() != 1 {
        return not_read(out);
    }
    load_in(bytes, numbers[0] as usize, out)
}

// Prints into `out` what an input of at most 32,768 bytes asks for, and answers how many bytes that
// is.
pub fn run(input: &[u8], out: &mut [u8; 8450]) -> usize
    ensures { Prints (run_of input.now) result out.new }
{
    if input.len() > 32768 {
        return not_read(out);
    }
    let end = replay_rows::row_end(input, 0);
    if end < 2 {
        return not_read(out);
    }
    let mut numbers = [0u32; 1024];
    let from: usize = 2;
    match replay_rows::read_row(&input[from..end], &mut numbers) {
        Some(n) => by_key(input[0], &numbers[..n], &input[end..], out),
        None => not_read(out),
    }
}
