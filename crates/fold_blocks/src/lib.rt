// Numbers and folds in the bytes of a fold file, the lowest byte first, and the sum of a block.
// The file of a fold list and the rules of its layout are in specs/. Document 02, #111.

#![tactic(auto)]

ghost use Rattle.std.specs.Prelude.{◌≡◌, ◌++◌, ◌+◌, ◌*◌, ◌≤◌, ◌<◌, length, get_or};
ghost use Rattle.print.specs.Print.{Wrote};
ghost use Rattle.fold_blocks.specs.Bytes.{one, two, four, two_at, four_at, Number};
ghost use Rattle.fold_blocks.specs.Bytes.{sum as sum_of};

// The byte at an index, as a number.
pub fn one_at(b: &[u8], at: usize) -> u32
    requires { at < length b.now }
    ensures { result ≡ get_or b.now at 0 }
{
    u32::from(b[at])
}

// The number that two bytes from an index on make.
pub fn two_at(b: &[u8], at: usize) -> usize
    requires { at + 2 ≤ length b.now }
    ensures { Number (two_at b.now at) 65535 result }
{
    usize::from(u16::from_le_bytes([b[at], b[at + 1]]))
}

// The same for four bytes.
pub fn four_at(b: &[u8], at: usize) -> u32
    requires { at + 4 ≤ length b.now }
    ensures { result ≡ four_at b.now at }
{
    u32::from_le_bytes([b[at], b[at + 1], b[at + 2], b[at + 3]])
}

// The sum of bytes.
pub fn sum(bytes: &[u8]) -> usize
    requires { length bytes.now ≤ 512 }
    ensures { result ≡ sum_of bytes.now }
{
    let mut total: usize = 0;
    for x in bytes {
        total += usize::from(*x);
    }
    total
}

// Writes a number in two bytes from an index on, and answers the next index.
pub fn put_two(out: &mut [u8], at: usize, x: usize) -> usize
    requires { at + 2 ≤ length out.old }
    ensures { Wrote out.old at (two x) result out.new }
{
    print::put_bytes(out, at, &((x % 65536) as u16).to_le_bytes())
}

// Writes a fold in nine bytes: start, end, closed.
pub fn put_entry(out: &mut [u8], at: usize, start: u32, end: u32, closed: u32) -> usize
    requires { at + 9 ≤ length out.old }
    ensures { Wrote out.old at (four start ++ four end ++ one closed) result
        out.new }
{
    let middle = print::put_bytes(out, at, &start.to_le_bytes());
    let last = print::put_bytes(out, middle, &end.to_le_bytes());
    print::put(out, last, (closed % 256) as u8)
}
