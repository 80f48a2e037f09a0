// Facts about one code point.
ghost use Rattle.std.specs.Prelude.{◌≡◌};
ghost use Rattle.call_bytes.specs.Reply.{Replied, told};
ghost use Rattle.call_rows.specs.Characters.{fact};
ghost use Rattle.call_rows.specs.Characters.{tested as tested_of};

use call_bytes::{Told, reply};
use widths::Ambiguous;

// What is told of a character that is tested: n, or 2 where it is no scalar value.
fn tested(x: u32, n: u32) -> Told
    ensures { result ≡ tested_of x n }
{
    if !chars::is_scalar(x) {
        return Told::Refused(2);
    }
    Told::Value(n)
}

// The fact that a number stands for: 0 whether x is a scalar value, 1 white space, 2 a letter, 3
// its width, and with the flag, 259, its width where class A is wide; 100 where it stands for none.
// Of all but the first, 2 where x is no scalar value.
fn fact_of(op: u32, x: u32) -> Told
    ensures { result ≡ fact op x }
{
    match op {
        0 => Told::Value(u32::from(chars::is_scalar(x))),
        1 => tested(x, u32::from(chars::is_white(x))),
        2 => tested(x, u32::from(letters::is_letter(x))),
        3 => tested(x, widths::width(Ambiguous::Narrow, x)),
        259 => tested(x, widths::width(Ambiguous::Wide, x)),
        _ => Told::Refused(100),
    }
}

// A fact about the code point x.
pub fn character(op: u32, x: u32, out: &mut [u32; 1]) -> u32
    ensures { Replied (told (fact op x)) out.old result out.new }
{
    reply(fact_of(op, x), out)
}
