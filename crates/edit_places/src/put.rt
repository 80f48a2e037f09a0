// Writing over a part of a buffer.
ghost use Rattle.std.specs.Prelude.{◌+◌, ◌≤◌, length};
ghost use Rattle.edit_places.specs.Replaced.{Over, zeros};

// Writes `points` over the places from `at` on.
pub fn put_at(buf: &mut [u32], at: usize, points: &[u32])
    requires { at + length points.now ≤ length buf.old }
    ensures { Over buf.old at points.now buf.new }
{
    let mut k: usize = 0;
    // `copy_from_slice` was tried: with it in WebAssembly a delete traps, see `gaps`
    while k < points.len() {
        buf[at + k] = points[k];
        k += 1;
    }
}

// Writes n zeros over the places from `at` on.
pub fn put_zeros(buf: &mut [u32], at: usize, n: usize)
    requires { at + n ≤ length buf.old }
    ensures { Over buf.old at (zeros n) buf.new }
{
    let mut k: usize = 0;
    // `fill` was tried, likewise
    while k < n {
        buf[at + k] = 0;
        k += 1;
    }
}
