// Rows of decimal numbers: each number is followed by a space, the last one by the row's end, and
// `3*97` is 97 three times.
ghost use Rattle.std.specs.Prelude.{◌≡◌, ◌+◌, ◌≤◌, ◌<◌, length, drop};
ghost use Rattle.replay_rows.specs.Rows.{RowRead, Filled, row_length};
ghost use Rattle.replay_rows.specs.Rows.{fresh as fresh_of, spoilt as spoilt_of};
ghost use Rattle.replay_rows.specs.Rows.{digit as digit_of, star as star_of};
ghost use Rattle.replay_rows.specs.Rows.{step as Rows-step};

use crate::Reader;

// Before the first digit.
fn fresh() -> Reader
    ensures { result ≡ fresh_of }
{
    Reader {
        value: 0,
        times: 1,
        begun: false,
        many: false,
        ok: true,
    }
}

// A reader that takes nothing more: the row before it was malformed.
fn spoilt() -> Reader
    ensures { result ≡ spoilt_of }
{
    Reader {
        value: 0,
        times: 1,
        begun: false,
        many: false,
        ok: false,
    }
}

impl Reader {
    // One digit more.
    fn digit(self, d: u32) -> Reader
        requires { d < 10 }
        ensures { result ≡ digit_of self d }
    {
        let v = self.value as u64 * 10 + d as u64;
        if v > 4294967295 {
            return spoilt();
        }
        Reader {
            value: v as u32,
            times: self.times,
            begun: true,
            many: self.many,
            ok: true,
        }
    }

    // After a `*` the number so far says how often the next one stands there.
    fn star(self) -> Reader
        ensures { result ≡ star_of self }
    {
        if self.begun & !self.many {
            return Reader {
                value: 0,
                times: self.value,
                begun: false,
                many: true,
                ok: true,
            };
        }
        spoilt()
    }

    // One byte more of a number.
    fn step(self, x: u8) -> Reader
        ensures { result ≡ Rows-step self x }
    {
        if x == 42 {
            return self.star();
        }
        if x < 48 {
            return spoilt();
        }
        if x > 57 {
            return spoilt();
        }
        self.digit(x as u32 - 48)
    }
}

// Puts x into `times` places from `from` on.
fn fill(room: &mut [u32], from: usize, times: usize, x: u32)
    requires { from + times ≤ length room.old }
    ensures { Filled room.old from times x room.new }
{
    room[from..from + times].fill(x);
}

// Puts the numbers of a row at the front of `room`, and answers how many they are. A row with more
// numbers than there is room for counts as malformed.
pub fn read_row(row: &[u8], room: &mut [u32]) -> Option<usize>
    ensures { RowRead row.now room.old result room.new }
{
    let mut n: usize = 0;
    let mut r = fresh();
    for x in row {
        if (*x == 32) | (*x == 10) {
            let times = r.times as usize;
            if !r.begun {
                return None;
            }
            if times > room.len() - n {
                return None;
            }
            fill(room, n, times, r.value);
            n += times;
            r = fresh();
        } else {
            r = r.step(*x);
            if !r.ok {
                return None;
            }
        }
    }
    if r.begun | r.many {
        return None;
    }
    Some(n)
}

// Past the end of the row that begins at `at`.
pub fn row_end(bytes: &[u8], at: usize) -> usize
    requires { at ≤ length bytes.now }
    ensures { result ≡ at + row_length (drop at bytes.now) }
{
    for i in at..bytes.len() {
        if bytes[i] == 10 {
            return i + 1;
        }
    }
    bytes.len()
}
