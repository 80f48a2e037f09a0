// A table written as a list.
ghost use Rattle.std.specs.Prelude.{◌≡◌, ◌≤◌, length};
ghost use Rattle.print.specs.Print.{Wrote};
ghost use Rattle.vim_reader.specs.Table.{kept};
ghost use Rattle.vim_writer.specs.Written.{written, written_of, written_in};
ghost use Rattle.vim_writer.specs.Rooms.{ListRoom};

use crate::VimWritten;
use vim_reader::VimSpec;

// `,`.
const COMMA: u32 = 44;

// How long the list of a table is.
fn list_size(spec: VimSpec) -> usize
    requires { spec.len ≤ 128 }
    ensures { result ≡ length (written (kept spec)) }
{
    let mut n: usize = 0;
    for (i, t) in spec.tokens[..spec.len].iter().enumerate() {
        if i > 0 {
            n += 1;
        }
        n += crate::tokens::token_size(*t);
    }
    n
}

// Writes the list of a table to the front of the room.
fn put_list(spec: VimSpec, room: &mut [u32]) -> usize
    requires { ListRoom spec room.old }
    ensures { Wrote room.old 0 (written (kept spec)) result room.new }
{
    let mut at: usize = 0;
    for (i, t) in spec.tokens[..spec.len].iter().enumerate() {
        if i > 0 {
            at = print::put(room, at, COMMA);
        }
        at = crate::tokens::put_token(room, at, *t);
    }
    at
}

// Writes a table as a list to the front of the room, its tokens in order, and answers how many code
// points those are; refuses 8 for a table with a length above 128, then 14 for a room that is too
// short.
pub fn write(spec: VimSpec, room: &mut [u32]) -> VimWritten
    ensures value { result ≡ written_of spec room.old }
    ensures room_after { room.new ≡ written_in spec room.old }
{
    if 128 < spec.len {
        return VimWritten::Refused(8);
    }
    let n = list_size(spec);
    if room.len() < n {
        return VimWritten::Refused(14);
    }
    VimWritten::Made(put_list(spec, room))
}
