// The parts of a keyword list: where one ends, and what is left of it without white space at its
// ends. The given `str::split` and `str::trim`.
ghost use Rattle.std.specs.Prelude.{◌≡◌, ◌+◌, ◌≤◌, length, drop};
ghost use Rattle.chars.specs.White.{whites};
ghost use Rattle.lists.specs.Lists.{up_to};
ghost use Rattle.list_parts.specs.Parts.{trim, Begun, Ended};

// The index of the first x of the list at or after `from`, or the list's length.
pub fn find(list: &[u32], from: usize, x: u32) -> usize
    requires { from ≤ length list.now }
    ensures { result ≡ from + up_to x (drop from list.now) }
{
    for i in from..list.len() {
        if list[i] == x {
            return i;
        }
    }
    list.len()
}

// By the table WHITE, which is lent: where the part begins once white space before it is left out.
fn trim_start(white: &[u32], p: &[u32]) -> usize
    requires { white.now ≡ whites }
    ensures { Begun p.now result }
{
    for (i, x) in p.iter().enumerate() {
        if !chars::white_in(white, *x) {
            return i;
        }
    }
    p.len()
}

// By the same table: where it ends once white space after it is left out.
fn trim_end(white: &[u32], p: &[u32]) -> usize
    requires { white.now ≡ whites }
    ensures { Ended p.now result }
{
    for i in (0..p.len()).rev() {
        if !chars::white_in(white, p[i]) {
            return i + 1;
        }
    }
    0
}

// The part without white space at its ends.
pub fn trimmed(p: &[u32]) -> &[u32]
    ensures { result.now ≡ trim p.now }
{
    let white = chars::WHITE;
    let s = trim_start(&white, p);
    let t = &p[s..];
    let e = trim_end(&white, t);
    &t[..e]
}
