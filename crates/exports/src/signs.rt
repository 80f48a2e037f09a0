// Keyword lists where plus signs are retired (document 02, #112).
ghost use Rattle.std.specs.Prelude.{◌≡◌};
ghost use Rattle.call_points.specs.Points.{points};
ghost use Rattle.call_bytes.specs.Reply.{Replied, Answered, told, unfit_one, fitting};
ghost use Rattle.call_signs.specs.Entry.{placed_reply, entering};
ghost use Rattle.list_signs.specs.Plain.{plain_in};
ghost use Rattle.call_signs.specs.Plain.{plain_told};

use call_bytes::fill;

// A list of code points entered, and a character. The answer's low half is a refusal's number, its
// high half the place that 21 has.
#[unsafe(no_mangle)]
pub extern "C" fn tsivareza_enter_u32(op: u32, list: &[u32], x: u32, out: &mut [u32; 1]) -> u64
    ensures { Replied (placed_reply (entering op x list.now)) out.old result
        out.new }
{
    call_signs::enter(op, list, x, out)
}

// A list of bytes entered, and a character.
#[unsafe(no_mangle)]
pub extern "C" fn tsivareza_enter(
    op: u32,
    list: &[u8],
    room: &mut [u32],
    x: u32,
    out: &mut [u32; 1],
) -> u64
    ensures { Answered list.now room.old out.old
        (placed_reply
        (entering op x (points list.now))) result room.new out.new }
{
    let f = fill(list, room);
    if f != 0 {
        return f as u64;
    }
    let n = list.len() / 4;
    call_signs::enter(op, &room[..n], x, out)
}

// A list of code points written without its retired signs.
#[unsafe(no_mangle)]
pub extern "C" fn tsivareza_without_plus_u32(
    list: &[u32],
    written: &mut [u32],
    out: &mut [u32; 1],
) -> u32
    ensures replied { Replied (told (plain_told written.old list.now))
        out.old result out.new }
    ensures written_after { written.new ≡ plain_in list.now written.old }
{
    call_signs::without_plus(list, written, out)
}

// A list of bytes written without its retired signs.
#[unsafe(no_mangle)]
pub extern "C" fn tsivareza_without_plus(
    list: &[u8],
    room: &mut [u32],
    written: &mut [u32],
    out: &mut [u32; 1],
) -> u32
    ensures answered { Answered list.now room.old out.old (told
        (plain_told written.old (points list.now))) result room.new
        out.new }
    ensures written_after { written.new ≡ fitting (unfit_one list.now
        room.old) (plain_in (points list.now) written.old)
        written.old }
{
    let f = fill(list, room);
    if f != 0 {
        return f;
    }
    let n = list.len() / 4;
    call_signs::without_plus(&room[..n], written, out)
}
