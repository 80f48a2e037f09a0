// The input of a session: command rows, a row with only a full stop, and a text. Where its text
// begins, and when it is refused. Document 01, "The session".

#![tactic(auto)]

ghost use Rattle.std.specs.Prelude.{◌≡◌, ◌≤◌, length};
ghost use Rattle.session_input.specs.Parts.{is_stop, stop_of, begin_of, TextIn};

use session_row::find;

// Whether a row has only a full stop.
pub fn is_stop(row: &[u8]) -> bool
    ensures { result ≡ is_stop row.now }
{
    row == b".".as_slice()
}

// Where the text begins, past the first such row. A `while`: the step differs from turn to turn.
fn find_stop(input: &[u8]) -> Option<usize>
    requires { length input.now ≤ 16384 }
    ensures { result ≡ stop_of input.now }
{
    let mut i: usize = 0;
    while i <= input.len() {
        let e = find(input, i, b'\n');
        let next = e + 1;
        if is_stop(&input[i..e]) {
            return Some(next);
        }
        i = next;
    }
    None
}

// Where the text of an input begins. Input over 16,384 bytes, that is no UTF-8 or with no full-stop
// row is refused.
pub fn begins(input: &[u8]) -> Option<usize>
    ensures { result ≡ begin_of input.now }
{
    if input.len() > 16384 {
        return None;
    }
    utf8::check(input).ok()?;
    find_stop(input)
}

// Puts the code points of the text that begins at an index into the room, and answers how many
// there are. The text of an input that is not refused is UTF-8 (`text_good`).
pub fn read_text(input: &[u8], from: usize, room: &mut [u32]) -> usize
    requires { length input.now ≤ length room.old }
    ensures { TextIn input.now from result room.new }
{
    if from >= input.len() {
        return 0;
    }
    utf8::decode(&input[from..], room).unwrap_or(0)
}
