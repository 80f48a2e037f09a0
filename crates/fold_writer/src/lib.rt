// Folds into a file: blocks of 512 bytes, by `fold_blocks`. Everything is checked first, and then
// written. Document 02, #111.

#![tactic(auto)]

ghost use Rattle.std.specs.Prelude.{◌≡◌, ◌+◌, ◌*◌, ◌≤◌, length, replicate};
ghost use Rattle.print.specs.Print.{Wrote};
ghost use Rattle.fold_blocks.specs.Bytes.{entries};
ghost use Rattle.fold_blocks.specs.Files.{body, block, blocks_for, count_in, file_of};
ghost use Rattle.fold_writer.specs.Writing.{PartRoom, FileRoom, Ends, WritesTo};

// The answer of the writer: how many bytes it wrote, or the number that it refuses with.
#[derive(Clone, Copy)]
pub enum Written {
    Bytes(usize),
    Refused(u32),
}

// Writes the entries of folds from an index on, and answers the next index.
fn put_entries(out: &mut [u8], at: usize, folds: &[u32]) -> usize
    requires { at + 9 * count_in folds.now ≤ length out.old }
    ensures { Wrote out.old at (entries folds.now) result
        out.new }
{
    let mut next = at;
    for fold in folds.chunks_exact(3) {
        next = fold_blocks::put_entry(out, next, fold[0], fold[1], fold[2]);
    }
    next
}

// Writes n zeros.
fn put_zeros(out: &mut [u8], at: usize, n: usize) -> usize
    requires { at + n ≤ length out.old }
    ensures { Wrote out.old at (replicate n 0) result out.new }
{
    let end = at + n;
    out[at..end].fill(0);
    end
}

// Writes the first 510 bytes of block k of a file of n folds, with these folds in it.
fn put_body(out: &mut [u8], at: usize, n: usize, k: usize, folds: &[u32]) -> usize
    requires { PartRoom folds.now 510 at out.old }
    ensures { Wrote out.old at (body n k folds.now) result
        out.new }
{
    let count = folds.len() / 3;
    let counted = fold_blocks::put_two(out, at, k);
    let listed = fold_blocks::put_two(out, counted, count);
    let unused = put_entries(out, listed, folds);
    let total = put_zeros(out, unused, 504 - 9 * count);
    fold_blocks::put_two(out, total, n)
}

// Writes the whole block: the sum of those bytes comes behind them.
fn put_block(out: &mut [u8], at: usize, n: usize, k: usize, folds: &[u32]) -> usize
    requires { PartRoom folds.now 512 at out.old }
    ensures { Wrote out.old at (block n k folds.now) result
        out.new }
{
    let end = put_body(out, at, n, k, folds);
    let sum = fold_blocks::sum(&out[at..end]);
    fold_blocks::put_two(out, end, sum % 65536)
}

// How many blocks n folds take.
fn blocks_for(n: usize) -> usize
    requires { n ≤ 256 }
    ensures { result ≡ blocks_for n }
{
    if n == 0 {
        return 1;
    }
    (n + 55) / 56
}

// Where the folds of a block end that begin at an index: 56 of them, or as far as they go.
fn end_of(from: usize, len: usize) -> usize
    requires { from ≤ len }
    ensures { Ends from len result }
{
    if len - from < 168 {
        return len;
    }
    from + 168
}

// Writes the file of folds at the start of `out`, and answers where it ends.
fn put_blocks(out: &mut [u8], folds: &[u32]) -> usize
    requires { FileRoom folds.now out.old }
    ensures { Wrote out.old 0 (file_of folds.now) result
        out.new }
{
    let n = folds.len() / 3;
    let many = blocks_for(n);
    let mut at: usize = 0;
    let mut from: usize = 0;
    for k in 0..many {
        let to = end_of(from, folds.len());
        at = put_block(out, at, n, k, &folds[from..to]);
        from = to;
    }
    at
}

// Writes the file of folds over a text at the start of `file`. Refused are the text (1 to 3), the
// folds (5) and then too little room (14); nothing is written then.
pub fn write_folds(text: &[u32], folds: &[u32], file: &mut [u8]) -> Written
    ensures { WritesTo text.now folds.now file.old result
        file.new }
{
    let f = text_check::text_refusal(text);
    if f != 0 {
        return Written::Refused(f);
    }
    let g = folds::fold_refusal(folds, text::row_count(text));
    if g != 0 {
        return Written::Refused(g);
    }
    let size = 512 * blocks_for(folds.len() / 3);
    if size > file.len() {
        return Written::Refused(14);
    }
    put_blocks(file, folds);
    Written::Bytes(size)
}
