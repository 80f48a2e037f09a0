// Code points written one after another into lent room: each function writes from an index on and
// answers the next index.
ghost use Rattle.std.specs.Prelude.{◌≡◌, ◌+◌, ◌≤◌, length, take};
ghost use Rattle.print.specs.Print.{Wrote, decimal};
ghost use Rattle.vim_writer.specs.Rooms.{PartRoom};

// Writes the first n of s, which are ASCII characters.
fn put_ascii(out: &mut [u32], at: usize, s: &[u8], n: usize) -> usize
    requires { PartRoom s.now n at out.old }
    ensures { Wrote out.old at (take n s.now) result out.new }
{
    for i in 0..n {
        out[at + i] = s[i] as u32;
    }
    at + n
}

// How many digits n has in decimal.
pub fn number_size(n: u32) -> usize
    ensures { result ≡ length (decimal n) }
{
    let mut digits = [0u8; 10];
    print::put_decimal(&mut digits, 0, n)
}

// Writes n in decimal.
pub fn put_number(out: &mut [u32], at: usize, n: u32) -> usize
    requires { at + length (decimal n) ≤ length out.old }
    ensures { Wrote out.old at (decimal n) result out.new }
{
    let mut digits = [0u8; 10];
    let k = print::put_decimal(&mut digits, 0, n);
    put_ascii(out, at, &digits, k)
}
