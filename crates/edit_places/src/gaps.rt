// A text edited in place: it is the first `len` places of a buffer. What stands behind an edit
// moves up from its end, and down from its start, so that nothing is written over before it is
// read.
ghost use Rattle.std.specs.Prelude.{◌+◌, ◌-◌, ◌≤◌, length, take, drop};
ghost use Rattle.edit_places.specs.Replaced.{replaced, Over, Deleted, Refilled};

use crate::put::{put_at, put_zeros};

// Moves what stands from a up to len up by m places, the last first. The gap keeps what stood
// there.
pub fn open_gap(buf: &mut [u32], len: usize, a: usize, m: usize)
    requires { (a ≤ len) × (len + m ≤ length buf.old) }
    ensures { Over buf.old (a + m) (drop a (take len buf.old))
        buf.new }
{
    let mut k = len - a;
    // `copy_within` was tried: it proves, but a delete in WebAssembly then traps
    while 0 < k {
        k -= 1;
        buf[a + m + k] = buf[a + k];
    }
}

// Moves what stands from b up to len down to a, the first first. What follows keeps what stood
// there.
pub fn close_up(buf: &mut [u32], len: usize, a: usize, b: usize)
    requires a_le_b { (a ≤ b) × (b ≤ len) }
    requires len_in_bounds { len ≤ length buf.old }
    ensures { Over buf.old a (drop b (take len buf.old))
        buf.new }
{
    let n = len - b;
    let mut k: usize = 0;
    // `copy_within` was tried, as above
    while k < n {
        buf[a + k] = buf[b + k];
        k += 1;
    }
}

// Deletes what stands from a up to b; the freed places, the last of the old text, become zeros.
pub fn close_gap(buf: &mut [u32], len: usize, a: usize, b: usize)
    requires { (a ≤ b) × (b ≤ len) × (len ≤ length buf.old) }
    ensures { Deleted buf.old len a b buf.new }
{
    close_up(buf, len, a, b);
    let kept = len - (b - a);
    put_zeros(buf, kept, len - kept);
}

// What stands from a up to b gives way to `points`; freed places, if any, become zeros.
pub fn replace_at(buf: &mut [u32], len: usize, a: usize, b: usize, points: &[u32])
    requires a_le_b { (a ≤ b) × (b ≤ len) × (len ≤ length buf.old) }
    requires points_in_bounds { len - (b - a) + length points.now ≤ length buf.old }
    ensures { Refilled buf.old len
        (replaced (take len buf.old) a b points.now) buf.new }
{
    let m = points.len();
    if m <= b - a {
        put_at(buf, a, points);
        close_gap(buf, len, a + m, b);
        return;
    }
    open_gap(buf, len, b, m - (b - a));
    put_at(buf, a, points);
}
