// A list read, a character by it, and a list written again.
ghost use Rattle.std.specs.Prelude.{◌≡◌, ◌≤◌};
ghost use Rattle.call_bytes.specs.Reply.{Replied};
ghost use Rattle.call_signs.specs.Entry.{placed, placed_reply};
ghost use Rattle.call_vim.specs.Vim.{vim_count, vim_matches, vim_by, vim_writing, vim_left};

use call_signs::Placed;
use vim_reader::{VimSpec, VimTested};
use vim_writer::VimWritten;

// A refusal's number, and the place in the list that it names.
fn placed_at(n: u32, place: usize) -> u64
    requires { place ≤ 1024 }
    ensures { result ≡ placed n place }
{
    place as u64 * 4294967296 + n as u64
}

// How many tokens the list has.
fn vim_count(list: &[u32]) -> Placed
    ensures { result ≡ vim_count list.now }
{
    let r = VimSpec::parse(list);
    if r.refusal != 0 {
        return Placed::Refused(placed_at(r.refusal, r.place));
    }
    Placed::Value(r.spec.len as u32)
}

// Whether x is a keyword character by the list.
fn vim_matches(list: &[u32], x: u32) -> Placed
    ensures { result ≡ vim_matches list.now x }
{
    match vim_reader::is_vim_char(x, list) {
        VimTested::Is(b) => Placed::Value(u32::from(b)),
        VimTested::Bad(place) => Placed::Refused(placed_at(17, place)),
        VimTested::Refused(f) => Placed::Refused(f as u64),
    }
}

// What a number stands for: 0 how many tokens the list has, 1 whether it holds x; 100 where it
// stands for none.
fn vim_by(op: u32, list: &[u32], x: u32) -> Placed
    ensures { result ≡ vim_by op x list.now }
{
    match op {
        0 => vim_count(list),
        1 => vim_matches(list, x),
        _ => Placed::Refused(100),
    }
}

// A list of code points read, and a character.
pub fn vim_list(op: u32, list: &[u32], x: u32, out: &mut [u32; 1]) -> u64
    ensures { Replied (placed_reply (vim_by op x list.now)) out.old result
        out.new }
{
    call_signs::reply_placed(vim_by(op, list, x), out)
}

// How many code points were written, or a refusal with its place.
fn vim_written(list: &[u32], written: &mut [u32]) -> Placed
    ensures value { result ≡ vim_writing list.now written.old }
    ensures written_after { written.new ≡ vim_left list.now written.old }
{
    let r = VimSpec::parse(list);
    if r.refusal != 0 {
        return Placed::Refused(placed_at(r.refusal, r.place));
    }
    let spec = r.spec;
    match vim_writer::write(spec, written) {
        VimWritten::Made(n) => Placed::Value(n as u32),
        VimWritten::Refused(f) => Placed::Refused(f as u64),
    }
}

// A list of code points read and written again.
pub fn vim_write(list: &[u32], written: &mut [u32], out: &mut [u32; 1]) -> u64
    ensures replied { Replied (placed_reply (vim_writing list.now written.old))
        out.old result out.new }
    ensures written_after { written.new ≡ vim_left list.now written.old }
{
    call_signs::reply_placed(vim_written(list, written), out)
}
