// Vim's own keyword lists, and the word motions by them (document 02, #108).
ghost use Rattle.std.specs.Prelude.{◌≡◌, [], ◌∷◌};
ghost use Rattle.call_points.specs.Points.{points};
ghost use Rattle.call_bytes.specs.Reply.{Replied, Answered, unfit_one, fitting};
ghost use Rattle.call_bytes.specs.Joined.{AnsweredAll};
ghost use Rattle.call_signs.specs.Entry.{placed_reply};
ghost use Rattle.call_texts.specs.Carets.{caret_of};
ghost use Rattle.call_folds.specs.Terms.{is_big};
ghost use Rattle.call_vim.specs.Vim.{vim_by, vim_writing, vim_left};
ghost use Rattle.call_vim_words.specs.ByTerm.{words_vim};

use call_bytes::{fill, fill_three};

// A list of code points read, and a character. The answer's low half is a refusal's number, its
// high half the place that 17 has.
#[unsafe(no_mangle)]
pub extern "C" fn tsivareza_vim_list_u32(op: u32, list: &[u32], x: u32, out: &mut [u32; 1]) -> u64
    ensures { Replied (placed_reply (vim_by op x list.now)) out.old result
        out.new }
{
    call_vim::vim_list(op, list, x, out)
}

// A list of bytes read, and a character.
#[unsafe(no_mangle)]
pub extern "C" fn tsivareza_vim_list(
    op: u32,
    list: &[u8],
    room: &mut [u32],
    x: u32,
    out: &mut [u32; 1],
) -> u64
    ensures { Answered list.now room.old out.old
        (placed_reply
        (vim_by op x (points list.now))) result room.new out.new }
{
    let f = fill(list, room);
    if f != 0 {
        return f as u64;
    }
    let n = list.len() / 4;
    call_vim::vim_list(op, &room[..n], x, out)
}

// A list of code points read and written again.
#[unsafe(no_mangle)]
pub extern "C" fn tsivareza_vim_write_u32(
    list: &[u32],
    written: &mut [u32],
    out: &mut [u32; 1],
) -> u64
    ensures replied { Replied (placed_reply (vim_writing list.now written.old))
        out.old result out.new }
    ensures written_after { written.new ≡ vim_left list.now written.old }
{
    call_vim::vim_write(list, written, out)
}

// A list of bytes read and written again.
#[unsafe(no_mangle)]
pub extern "C" fn tsivareza_vim_write(
    list: &[u8],
    room: &mut [u32],
    written: &mut [u32],
    out: &mut [u32; 1],
) -> u64
    ensures answered { Answered list.now room.old out.old
        (placed_reply
        (vim_writing (points list.now) written.old)) result room.new
        out.new }
    ensures written_after { written.new ≡ fitting (unfit_one list.now
        room.old) (vim_left (points list.now) written.old)
        written.old }
{
    let f = fill(list, room);
    if f != 0 {
        return f as u64;
    }
    let n = list.len() / 4;
    call_vim::vim_write(&room[..n], written, out)
}

// A word motion by a Vim list over a text of code points, with folds; big words where `big` is not
// 0. The answer's low half is a refusal's number, its high half the place that 17 has.
#[unsafe(no_mangle)]
pub extern "C" fn tsivareza_word_vim_u32(
    op: u32,
    text: &[u32],
    folds: &[u32],
    list: &[u32],
    row: u32,
    col: u32,
    held: u32,
    sticky: u32,
    big: u32,
    count: u32,
    out: &mut [u32; 4],
) -> u64
    ensures { Replied (words_vim op (is_big big) count (caret_of row col held sticky)
        text.now folds.now list.now) out.old result
        out.new }
{
    call_vim_words::word_vim(
        op, text, folds, list, row, col, held, sticky, big, count, out,
    )
}

// The same over a text, folds and a list of bytes, whose code points share the room.
#[unsafe(no_mangle)]
pub extern "C" fn tsivareza_word_vim(
    op: u32,
    text: &[u8],
    folds: &[u8],
    list: &[u8],
    room: &mut [u32],
    row: u32,
    col: u32,
    held: u32,
    sticky: u32,
    big: u32,
    count: u32,
    out: &mut [u32; 4],
) -> u64
    ensures { AnsweredAll (text.now ∷ folds.now ∷ list.now ∷ [])
        room.old out.old (words_vim op (is_big big) count (caret_of row col held
        sticky) (points text.now) (points folds.now)
        (points list.now)) result room.new out.new }
{
    let f = fill_three(text, folds, list, room);
    if f != 0 {
        return f as u64;
    }
    let n = text.len() / 4;
    let m = n + folds.len() / 4;
    let end = m + list.len() / 4;
    let all: &[u32] = room;
    call_vim_words::word_vim(
        op,
        &all[..n],
        &all[n..m],
        &all[m..end],
        row,
        col,
        held,
        sticky,
        big,
        count,
        out,
    )
}
