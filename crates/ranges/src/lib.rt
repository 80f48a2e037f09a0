// A set of numbers as ranges in ascending order: one table of bounds, where a range is its first
// number and the first number after it, or a table of starts beside one of lengths. Used by every
// table of `chars` and `letters`.

#![tactic(auto)]

ghost use Rattle.std.specs.Prelude.{◌≡◌, T};
ghost use Rattle.ranges.specs.Ranges.{in_table, ascending, BelowFrom, UpTo};
ghost use Rattle.ranges.specs.Lengths.{bounds_of, apart};

// How many numbers of an ascending table are at most x, which is below those from `end` on. Halves
// the table at each step.
fn up_to_end(table: &[u32], x: u32, end: usize) -> usize
    requires { T (ascending table.now) × BelowFrom table.now x end }
    ensures { UpTo table.now x result }
{
    let mut low: usize = 0;
    let mut high: usize = end;
    // A `while`: its steps halve, and the innermost walks ask this.
    while low < high {
        let mid = low + (high - low) / 2;
        if table[mid] <= x {
            low = mid + 1;
        } else {
            high = mid;
        }
    }
    low
}

// How many numbers of an ascending table are at most x. What is asked most often, as letters of a
// table of widths, lies before its third number: there no search is made.
fn up_to(table: &[u32], x: u32) -> usize
    requires { T (ascending table.now) }
    ensures { UpTo table.now x result }
{
    let len = table.len();
    if len > 2 {
        if x < table[2] {
            return up_to_end(table, x, 2);
        }
    }
    up_to_end(table, x, len)
}

// Whether x lies in a range of the table: an odd number of bounds are at most x.
pub fn in_table(table: &[u32], x: u32) -> bool
    requires { T (ascending table.now) }
    ensures { result ≡ in_table x table.now }
{
    up_to(table, x) % 2 == 1
}

// Whether x lies in a range, by starts and lengths: in the last one that starts at x or before.
pub fn in_ranges(starts: &[u32], lengths: &[u16], x: u32) -> bool
    requires { T (apart starts.now lengths.now) }
    ensures { result ≡ in_table x (bounds_of starts.now lengths.now) }
{
    let n = up_to(starts, x);
    if n == 0 {
        return false;
    }
    let last = n - 1;
    x - starts[last] < (lengths[last] as u32)
}
