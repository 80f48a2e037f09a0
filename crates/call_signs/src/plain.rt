// A list written without its retired signs.
ghost use Rattle.std.specs.Prelude.{◌≡◌};
ghost use Rattle.call_bytes.specs.Reply.{Replied, told};
ghost use Rattle.list_signs.specs.Plain.{plain_in};
ghost use Rattle.call_signs.specs.Plain.{plain_told};

use call_bytes::{Told, reply};
use list_signs::Plain;

// How many code points were written, or a refusal.
fn plain_told(list: &[u32], written: &mut [u32]) -> Told
    ensures value { result ≡ plain_told written.old list.now }
    ensures written_after { written.new ≡ plain_in list.now written.old }
{
    match list_signs::without_plus(list, written) {
        Plain::Made(n) => Told::Value(n as u32),
        Plain::Refused(f) => Told::Refused(f),
    }
}

// The list of code points written without its retired signs.
pub fn without_plus(list: &[u32], written: &mut [u32], out: &mut [u32; 1]) -> u32
    ensures replied { Replied (told (plain_told written.old list.now))
        out.old result out.new }
    ensures written_after { written.new ≡ plain_in list.now written.old }
{
    reply(plain_told(list, written), out)
}
