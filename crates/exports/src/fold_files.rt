// Folds into a file and back. Document 02, #111. A file is bytes in either form.
ghost use Rattle.std.specs.Prelude.{◌≡◌, [], ◌∷◌};
ghost use Rattle.call_points.specs.Points.{points as points_of};
ghost use Rattle.call_bytes.specs.Reply.{Replied, Answered, unfit_one, fitting};
ghost use Rattle.call_bytes.specs.Joined.{AnsweredAll, unfit_all};
ghost use Rattle.fold_writer.specs.Writing.{written_in};
ghost use Rattle.fold_reader.specs.Reading.{loaded_in};
ghost use Rattle.call_fold_file.specs.FoldFiles.{writes, reads};

use call_bytes::{fill, fill_two};

// The file of folds over a text.
#[unsafe(no_mangle)]
pub extern "C" fn tsivareza_folds_write_u32(
    text: &[u32],
    folds: &[u32],
    file: &mut [u8],
    out: &mut [u32; 1],
) -> u32
    ensures replied { Replied (writes text.now folds.now file.old)
        out.old result out.new }
    ensures file_after { file.new ≡ written_in text.now folds.now
        file.old }
{
    call_fold_file::folds_write(text, folds, file, out)
}

// The folds of a file, over a text.
#[unsafe(no_mangle)]
pub extern "C" fn tsivareza_folds_read_u32(
    text: &[u32],
    file: &[u8],
    folds: &mut [u32],
    out: &mut [u32; 1],
) -> u32
    ensures replied { Replied (reads text.now file.now folds.old)
        out.old result out.new }
    ensures folds_after { folds.new ≡ loaded_in text.now file.now
        folds.old }
{
    call_fold_file::folds_read(text, file, folds, out)
}

// The file of folds over a text, both of four bytes to a number.
#[unsafe(no_mangle)]
pub extern "C" fn tsivareza_folds_write(
    text: &[u8],
    folds: &[u8],
    room: &mut [u32],
    file: &mut [u8],
    out: &mut [u32; 1],
) -> u32
    ensures answered_all { AnsweredAll (text.now ∷ folds.now ∷ [])
        room.old out.old (writes (points_of text.now)
        (points_of folds.now) file.old) result room.new
        out.new }
    ensures file_after { file.new ≡ fitting (unfit_all (text.now ∷
        folds.now ∷ []) room.old) (written_in (points_of
        text.now) (points_of folds.now) file.old)
        file.old }
{
    let f = fill_two(text, folds, room);
    if f != 0 {
        return f;
    }
    let n = text.len() / 4;
    let end = n + folds.len() / 4;
    let all: &[u32] = room;
    call_fold_file::folds_write(&all[..n], &all[n..end], file, out)
}

// The folds of a file, over a text of four bytes to a number.
#[unsafe(no_mangle)]
pub extern "C" fn tsivareza_folds_read(
    text: &[u8],
    file: &[u8],
    room: &mut [u32],
    folds: &mut [u32],
    out: &mut [u32; 1],
) -> u32
    ensures answered { Answered text.now room.old out.old (reads
        (points_of text.now) file.now folds.old) result
        room.new out.new }
    ensures folds_after { folds.new ≡ fitting (unfit_one text.now
        room.old) (loaded_in (points_of text.now) file.now
        folds.old) folds.old }
{
    let f = fill(text, room);
    if f != 0 {
        return f;
    }
    let n = text.len() / 4;
    call_fold_file::folds_read(&room[..n], file, folds, out)
}
