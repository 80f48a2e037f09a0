// The check of a text and of its table of row starts, in one pass. The answers are those of
// `text_check::text_refusal`, `text::row_count` and `row_table::check::table_refusal`, each of
// which would pass over the text by itself. From document 02, #106.

#![tactic(auto)]

ghost use Rattle.std.specs.Prelude.{◌≡◌, ◌≤◌, length};
ghost use Rattle.text_rows.specs.Pass.{is_mark, ReadIn, Tells, found_in};

// The number that a text is refused with, how many rows it has, and the number that its table is
// refused with.
#[derive(Clone, Copy)]
pub struct Found {
    pub refusal: u32,
    pub rows: usize,
    pub table: u32,
}

// What a text holds: whether a code point is from U+2000 on, and how many marks.
#[derive(Clone, Copy)]
struct Held {
    high: bool,
    marks: u32,
}

// How many code points are read before their starts are: 16 KiB, which a core keeps at hand.
const STRETCH: usize = 4096;

// Whether x is a mark: a separator, or a line break below U+2000 that a text may not hold, U+000B
// to U+000D and U+0085. Two more, and without the bits in which the five then differ, each is 4.
// Some other control characters come to 4 too, but no tab and nothing that is printed.
fn is_mark(x: u32) -> bool
    ensures { result ≡ is_mark x }
{
    std::num::wrapping_add_u32(x, 2) & 0xffffff74 == 4
}

// One pass, with no branch on what is read, so that the compiler reads many code points at a time:
// all their bits together tell whether one is from U+2000 on. The marks are counted in 32 bits, of
// which it reads more at a time than of 64.
fn read(t: &[u32]) -> Held
    requires { length t.now ≤ 1048576 }
    ensures { ReadIn t.now result }
{
    let mut bits: u32 = 0;
    let mut n: u32 = 0;
    for &x in t {
        bits |= x;
        if is_mark(x) {
            n += 1;
        }
    }
    Held {
        high: bits >= 0x2000,
        marks: n,
    }
}

// How many rows the text has, where it is accepted and the table holds their starts; 0 where that
// is not so, or not told by one pass. The starts in a table stand behind a separator each: where
// they are as many as the marks, every mark is a separator, and no line break is left to refuse.
// Stretch by stretch, so that what is read once more is still at hand: the starts in it, and all of
// it where it has code points from U+2000 on.
fn rows_by(t: &[u32], starts: &[u32]) -> usize
    ensures { Tells t.now starts.now result }
{
    if t.len() > 1048576 {
        return 0;
    }
    if starts.len() == 0 {
        return 0;
    }
    if starts[0] != 0 {
        return 0;
    }
    let mut rows: usize = 1;
    for part in t.chunks(STRETCH) {
        let s = read(part);
        if text_check::high_refusal(part, s.high) != 0 {
            return 0;
        }
        let more = rows + s.marks as usize;
        if more > starts.len() {
            return 0;
        }
        if !row_table::check::go_on(t, rows, more, starts) {
            return 0;
        }
        rows = more;
    }
    rows
}

// Each by itself, where one pass does not tell.
fn found_apart(t: &[u32], starts: &[u32], content: u32) -> Found
    ensures { result ≡ found_in t.now starts.now content }
{
    let rows = text::row_count(t);
    let f = text_check::text_refusal(t);
    let g = row_table::check::table_refusal(t, rows, rows, starts, content);
    Found {
        refusal: f,
        rows,
        table: g,
    }
}

// The check of a text and of its table, with the number of rows with content beside it.
pub fn checked(t: &[u32], starts: &[u32], content: u32) -> Found
    ensures { result ≡ found_in t.now starts.now content }
{
    let rows = rows_by(t, starts);
    if rows == 0 {
        return found_apart(t, starts, content);
    }
    if content as usize != text::content_of(t, rows) {
        return Found {
            refusal: 0,
            rows,
            table: 16,
        };
    }
    Found {
        refusal: 0,
        rows,
        table: 0,
    }
}
