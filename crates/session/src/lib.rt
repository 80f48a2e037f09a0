// Document 01's session: command rows, a row with only a full stop, and a text, all of it UTF-8
// (document 02, #105). Every command row prints a line: its key, and the row and column of the
// caret then.

#![tactic(auto)]

ghost use Rattle.std.specs.Prelude.{◌≡◌, ◌+◌, ◌≤◌, length, drop};
ghost use Rattle.lists.specs.Codes.{codes};
ghost use Rattle.print.specs.Print.{Wrote};
ghost use Rattle.utf8.specs.Walks.{points_of};
ghost use Rattle.motions.specs.Carets.{caret_after};
ghost use Rattle.session.specs.Session.{turned, shown_of, line_of, output_of, session_of};
ghost use Rattle.session.specs.Written.{Printed};

use motions::{Caret, Moved};
use print::{put, put_bytes, put_decimal};
use session_row::find;

// What a command row does: where it leads to, or the number that it is refused with, 0 for an
// unknown key or a malformed row.
fn turn(t: &[u32], k: Caret, row: &[u8]) -> Moved
    ensures { result ≡ turned t.now k row.now }
{
    match session_row::count_in(row) {
        Some(n) => session_presses::press(session_row::key(row), k, t, n),
        None => Moved::Refused(0),
    }
}

// The caret after it.
fn after(k: Caret, m: Moved) -> Caret
    ensures { result ≡ caret_after k m }
{
    match m {
        Moved::To(q) => q,
        Moved::Refused(_) => k,
    }
}

// Writes what stands in the key's place.
fn put_shown(out: &mut [u8], at: usize, key: &[u8], m: Moved) -> usize
    requires { at + length (shown_of key.now m) ≤ length out.old }
    ensures { Wrote out.old at (shown_of key.now m) result
        out.new }
{
    match m {
        Moved::To(_) => put_bytes(out, at, key),
        Moved::Refused(f) => {
            if f == 0 {
                return put(out, at, b'?');
            }
            let next = put(out, at, b'!');
            put_decimal(out, next, f)
        }
    }
}

// Writes a line: the key or what stands in its place, the caret's row and its column.
fn put_line(out: &mut [u8], at: usize, key: &[u8], m: Moved, k: Caret) -> usize
    requires { at + length (line_of (shown_of key.now m) k) ≤ length out.old }
    ensures { Wrote out.old at (line_of (shown_of key.now m) k) result
        out.new }
{
    let a = put_shown(out, at, key, m);
    let b = put(out, a, b' ');
    let c = put_decimal(out, b, k.row);
    let d = put(out, c, b' ');
    let e = put_decimal(out, d, k.col);
    put(out, e, b'\n')
}

// Writes the lines of all command rows, and answers how many bytes they are. A `while`: the step
// differs from turn to turn.
fn lines(input: &[u8], t: &[u32], out: &mut [u8]) -> usize
    requires { (length input.now ≤ 16384) × (393240 ≤ length out.old) }
    ensures { Wrote out.old 0 (output_of t.now input.now) result
        out.new }
{
    let mut k = Caret::at(0, 0, None);
    let mut at: usize = 0;
    let mut i: usize = 0;
    while i <= input.len() {
        let e = find(input, i, b'\n');
        let row = &input[i..e];
        if session_input::is_stop(row) {
            return at;
        }
        let m = turn(t, k, row);
        k = after(k, m);
        at = put_line(out, at, session_row::key(row), m, k);
        i = e + 1;
    }
    at
}

// What an input with a full-stop row prints; its text begins at `from`.
fn run(input: &[u8], from: usize, out: &mut [u8]) -> usize
    requires { (length input.now ≤ 16384) × (393240 ≤ length out.old) }
    ensures { Wrote out.old 0 (output_of (points_of (drop from
        input.now)) input.now) result out.new }
{
    let mut room = [0u32; 16384];
    let n = session_input::read_text(input, from, &mut room);
    lines(input, &room[..n], out)
}

// What an input that is not taken prints.
fn refuse(out: &mut [u8]) -> usize
    requires { 393240 ≤ length out.old }
    ensures { Wrote out.old 0 (codes "refused\n") result out.new }
{
    put_bytes(out, 0, b"refused\n")
}

// Prints into out what the input asks for, and answers how many bytes that is. Input over 16,384
// bytes, that is no UTF-8 or with no full-stop row prints `refused`. Columns count code points.
// What is printed is ASCII, and so its own encoding (`session_encoded`). The room is enough for the
// longest output: a row prints at most 24 bytes for each of its own, its separator included.
pub fn session(input: &[u8], out: &mut [u8; 393240]) -> usize
    ensures { Printed out.old (session_of input.now) result
        out.new }
{
    match session_input::begins(input) {
        Some(from) => run(input, from, out),
        None => refuse(out),
    }
}
