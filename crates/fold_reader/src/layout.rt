// The check of a file's length, sums and layout.
ghost use Rattle.std.specs.Prelude.{◌≡◌, ◌*◌, ◌/◌, ◌≤◌, length};
ghost use Rattle.lists.specs.Lists.{any};
ghost use Rattle.fold_blocks.specs.Listed.{blocks_of, count_all};
ghost use Rattle.fold_blocks.specs.Layout.{is_uncut, is_torn, is_used, is_broken, layout_refusal};
ghost use Rattle.fold_blocks.specs.Layout.{breaks as breaks_of};
ghost use Rattle.fold_reader.specs.Rooms.{BlockAt};

// Whether a length isn't that of 1 to 5 blocks.
fn uncut(file: &[u8]) -> bool
    ensures { result ≡ is_uncut file.now }
{
    (file.len() % 512 != 0) | ((file.len() == 0) | (file.len() > 2560))
}

// Whether a block's sum doesn't fit its first 510 bytes.
fn torn(block: &[u8]) -> bool
    requires { length block.now ≡ 512 }
    ensures { result ≡ is_torn block.now }
{
    fold_blocks::two_at(block, 510) != fold_blocks::sum(&block[..510]) % 65536
}

// Whether that is so of some block.
fn any_torn(file: &[u8]) -> bool
    ensures { result ≡ any is_torn (blocks_of file.now) }
{
    for block in file.chunks_exact(512) {
        if torn(block) {
            return true;
        }
    }
    false
}

// Whether some byte isn't 0.
fn used(bytes: &[u8]) -> bool
    ensures { result ≡ any is_used bytes.now }
{
    let mut found = false;
    for x in bytes {
        found |= *x != 0;
    }
    found
}

// Whether block k of so many, in a file of n folds, breaks a rule of the layout.
fn breaks(block: &[u8], many: usize, n: usize, k: usize) -> bool
    requires { BlockAt block.now k }
    ensures { result ≡ breaks_of many n k block.now }
{
    if fold_blocks::two_at(block, 0) != k {
        return true;
    }
    let count = fold_blocks::two_at(block, 2);
    if count > 56 {
        return true;
    }
    if (k + 1 < many) & (count != 56) {
        return true;
    }
    if (many > 1) & (count == 0) {
        return true;
    }
    let from = 4 + 9 * count;
    let end: usize = 508;
    if used(&block[from..end]) {
        return true;
    }
    fold_blocks::two_at(block, 508) != n
}

// How many folds the blocks say that they have.
fn count_all(file: &[u8]) -> usize
    requires { length file.now ≤ 2560 }
    ensures { result ≡ count_all (blocks_of file.now) }
{
    let mut n: usize = 0;
    for block in file.chunks_exact(512) {
        n += fold_blocks::two_at(block, 2);
    }
    n
}

// Whether some block breaks a rule.
fn broken(file: &[u8]) -> bool
    requires { length file.now ≤ 2560 }
    ensures { result ≡ is_broken file.now }
{
    let many = file.len() / 512;
    let n = count_all(file);
    for (k, block) in file.chunks_exact(512).enumerate() {
        if breaks(block, many, n, k) {
            return true;
        }
    }
    false
}

// The number that a file is refused with: 18 its length, 19 a sum, 20 the layout; 0 where it is
// whole.
pub fn layout_refusal(file: &[u8]) -> u32
    ensures { result ≡ layout_refusal file.now }
{
    if uncut(file) {
        return 18;
    }
    if any_torn(file) {
        return 19;
    }
    if broken(file) {
        return 20;
    }
    0
}
