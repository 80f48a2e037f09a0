// Calls for hosts on fold files: folds into a file and back. Document 02, #111.

#![tactic(auto)]

ghost use Rattle.std.specs.Prelude.{◌≡◌};
ghost use Rattle.call_bytes.specs.Reply.{Replied};
ghost use Rattle.fold_writer.specs.Writing.{written_in};
ghost use Rattle.fold_reader.specs.Reading.{loaded_in};
ghost use Rattle.call_fold_file.specs.FoldFiles.{writes, reads};

use call_bytes::{Told, reply};
use fold_reader::Loaded;
use fold_writer::Written;

// Puts the file of `folds` over `text` at the start of `file`, and how many bytes it has into
// `out`; 1 to 3, 5 and then 14.
pub fn folds_write(text: &[u32], folds: &[u32], file: &mut [u8], out: &mut [u32; 1]) -> u32
    ensures replied { Replied (writes text.now folds.now file.old)
        out.old result out.new }
    ensures file_after { file.new ≡ written_in text.now folds.now
        file.old }
{
    match fold_writer::write_folds(text, folds, file) {
        Written::Bytes(n) => reply(Told::Value(n as u32), out),
        Written::Refused(f) => reply(Told::Refused(f), out),
    }
}

// Puts the folds of `file` at the start of `folds`, and how many there are into `out`; 1 to 3, 18,
// 19, 20, 5 and then 14.
pub fn folds_read(text: &[u32], file: &[u8], folds: &mut [u32], out: &mut [u32; 1]) -> u32
    ensures replied { Replied (reads text.now file.now folds.old)
        out.old result out.new }
    ensures folds_after { folds.new ≡ loaded_in text.now file.now
        folds.old }
{
    match fold_reader::read_folds(text, file, folds) {
        Loaded::Folds(n) => reply(Told::Value(n as u32), out),
        Loaded::Refused(f) => reply(Told::Refused(f), out),
    }
}
