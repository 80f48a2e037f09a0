// A command row of a session: a key, then optionally a space and 1 to 9 digits. Document 01, "The
// session".

#![tactic(auto)]

ghost use Rattle.std.specs.Prelude.{◌≡◌, ◌≤◌, length};
ghost use Rattle.session_row.specs.Commands.{key_part, digits_of, count_in, Ends};

// Where the first x stands at or after `from`, or the length where there is none.
pub fn find(s: &[u8], from: usize, x: u8) -> usize
    requires { from ≤ length s.now }
    ensures { Ends s.now from x result }
{
    for i in from..s.len() {
        if s[i] == x {
            return i;
        }
    }
    s.len()
}

// The number that 1 to 9 digits make.
fn digits(s: &[u8]) -> Option<u32>
    ensures { result ≡ digits_of s.now }
{
    if s.len() == 0 {
        return None;
    }
    if s.len() > 9 {
        return None;
    }
    let mut n: u32 = 0;
    for b in s {
        if *b < 48 {
            return None;
        }
        if *b > 57 {
            return None;
        }
        n = n * 10 + (*b as u32 - 48);
    }
    Some(n)
}

// The key of a row: its bytes before the first space.
pub fn key(row: &[u8]) -> &[u8]
    ensures { result.now ≡ key_part row.now }
{
    let e = find(row, 0, 32);
    &row[..e]
}

// The count of a row: that of the digits after its first space, 0 where it has no space.
pub fn count_in(row: &[u8]) -> Option<u32>
    ensures { result ≡ count_in row.now }
{
    let e = find(row, 0, 32);
    if e == row.len() {
        return Some(0);
    }
    let d = e + 1;
    digits(&row[d..])
}
