// The folds of a file whose layout is whole.
ghost use Rattle.std.specs.Prelude.{drop};
ghost use Rattle.print.specs.Print.{Wrote};
ghost use Rattle.fold_blocks.specs.Bytes.{entry_at, entries_in};
ghost use Rattle.fold_blocks.specs.Listed.{folds_in};
ghost use Rattle.fold_reader.specs.Rooms.{EntryRoom, EntriesRoom, FileRoom};

// Puts the fold of the entry at an index of a block into `out`, and answers the next index of that.
fn take_entry(block: &[u8], from: usize, out: &mut [u32], at: usize) -> usize
    requires { EntryRoom block.now from out.old at }
    ensures { Wrote out.old at (entry_at block.now from) result
        out.new }
{
    let start = fold_blocks::four_at(block, from);
    let end = fold_blocks::four_at(block, from + 4);
    let closed = fold_blocks::one_at(block, from + 8);
    let second = print::put(out, at, start);
    let third = print::put(out, second, end);
    print::put(out, third, closed)
}

// Puts the folds of the first `count` entries of a block into `out` from an index on.
fn take_entries(block: &[u8], count: usize, out: &mut [u32], at: usize) -> usize
    requires { EntriesRoom block.now count out.old at }
    ensures { Wrote out.old at (entries_in count (drop 4 block.now)) result
        out.new }
{
    let mut next = at;
    for i in 0..count {
        next = take_entry(block, 4 + 9 * i, out, next);
    }
    next
}

// Puts the folds of all blocks at the start of `out`, and answers how many numbers they are.
pub fn take_all(file: &[u8], out: &mut [u32]) -> usize
    requires { FileRoom file.now out.old }
    ensures { Wrote out.old 0 (folds_in file.now) result
        out.new }
{
    let mut next: usize = 0;
    for block in file.chunks_exact(512) {
        let count = fold_blocks::two_at(block, 2);
        next = take_entries(block, count, out, next);
    }
    next
}
