// Writing into lent room, one piece after another: each function writes from an index on and
// answers the next index.

#![tactic(auto)]

ghost use Rattle.std.specs.Prelude.{[], ◌∷◌, ◌+◌, ◌≤◌, ◌<◌, length};
ghost use Rattle.print.specs.Print.{Wrote, decimal};

// Writes one element.
pub fn put<T: Copy>(out: &mut [T], at: usize, x: T) -> usize
    requires { at < length out.old }
    ensures { Wrote out.old at (x ∷ []) result out.new }
{
    out[at] = x;
    at + 1
}

// Writes the bytes of s.
pub fn put_bytes(out: &mut [u8], at: usize, s: &[u8]) -> usize
    requires { at + length s.now ≤ length out.old }
    ensures { Wrote out.old at s.now result out.new }
{
    for i in 0..s.len() {
        out[at + i] = s[i];
    }
    at + s.len()
}

// Writes n in decimal.
pub fn put_decimal(out: &mut [u8], at: usize, n: u32) -> usize
    requires { at + length (decimal n) ≤ length out.old }
    ensures { Wrote out.old at (decimal n) result out.new }
{
    if n < 10 {
        return put(out, at, 48 + n as u8);
    }
    let next = put_decimal(out, at, n / 10);
    put(out, next, 48 + (n % 10) as u8)
}
