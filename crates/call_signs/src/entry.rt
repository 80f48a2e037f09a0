// The entry of a list.
ghost use Rattle.std.specs.Prelude.{◌≡◌, ◌≤◌};
ghost use Rattle.call_bytes.specs.Reply.{Replied};
ghost use Rattle.call_signs.specs.Entry.{placed, placed_reply, placed_matched, by_entry};
ghost use Rattle.call_signs.specs.Entry.{entered_count, entered_matches, entering};

use crate::Placed;
use keywords::Matched;
use list_signs::Entered;

// A refusal's number, and the place in the list that it names.
fn placed_at(n: u32, place: usize) -> u64
    requires { place ≤ 1024 }
    ensures { result ≡ placed n place }
{
    place as u64 * 4294967296 + n as u64
}

// Whether the list holds the character, 1 or 0, or the number it is refused with; no place.
fn placed_matched(m: Matched) -> Placed
    ensures { result ≡ placed_matched m }
{
    match m {
        Matched::Is(b) => Placed::Value(u32::from(b)),
        Matched::Refused(f) => Placed::Refused(f as u64),
    }
}

// How many tokens of the list are kept.
fn entered_count(list: &[u32]) -> Placed
    ensures { result ≡ entered_count list.now }
{
    let e = list_signs::enter(list);
    if e.refusal != 0 {
        return Placed::Refused(placed_at(e.refusal, e.place));
    }
    Placed::Value(e.spec.len as u32)
}

// Whether x is a keyword character by the table of an entered list.
fn by_entry(e: Entered, x: u32) -> Placed
    requires { e.place ≤ 1024 }
    ensures { result ≡ by_entry e x }
{
    if e.refusal != 0 {
        return Placed::Refused(placed_at(e.refusal, e.place));
    }
    let spec = e.spec;
    placed_matched(spec.matches(x))
}

// The same of a list; the number of the character comes first.
fn entered_matches(list: &[u32], x: u32) -> Placed
    ensures { result ≡ entered_matches list.now x }
{
    if !chars::is_scalar(x) {
        return Placed::Refused(2);
    }
    by_entry(list_signs::enter(list), x)
}

// What a number stands for: 0 how many tokens are kept, 1 whether the list holds x; 100 where it
// stands for none.
fn enter_by(op: u32, list: &[u32], x: u32) -> Placed
    ensures { result ≡ entering op x list.now }
{
    match op {
        0 => entered_count(list),
        1 => entered_matches(list, x),
        _ => Placed::Refused(100),
    }
}

// Puts a number into `out` and answers 0, or answers the refusal with its place.
pub fn reply_placed(m: Placed, out: &mut [u32; 1]) -> u64
    ensures { Replied (placed_reply m) out.old result out.new }
{
    match m {
        Placed::Value(n) => {
            *out = [n];
            0
        }
        Placed::Refused(f) => f,
    }
}

// A list of code points entered, and a character.
pub fn enter(op: u32, list: &[u32], x: u32, out: &mut [u32; 1]) -> u64
    ensures { Replied (placed_reply (entering op x list.now)) out.old result
        out.new }
{
    reply_placed(enter_by(op, list, x), out)
}
