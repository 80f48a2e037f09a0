// Row starts written into a lent table.
ghost use Rattle.edit_places.specs.Replaced.{Over};
ghost use Rattle.row_table.specs.Table.{starts_from, row_starts};
ghost use Rattle.row_table.specs.Fill.{PartRoom, TextRoom, FillsTo};

use text::Counted;

// Writes the rows that start in a part of a text into the places from `place` on. The part begins
// at the offset `at` of its text.
pub fn put_starts(starts: &mut [u32], place: usize, at: usize, part: &[u32])
    requires { PartRoom starts.old place at part.now }
    ensures { Over starts.old place (starts_from at part.now)
        starts.new }
{
    let mut n: usize = 0;
    for (i, x) in part.iter().enumerate() {
        if *x == 10 {
            starts[place + n] = (at + i + 1) as u32;
            n += 1;
        }
    }
}

// Writes the row starts of a text into the first places.
fn put_rows(starts: &mut [u32], t: &[u32])
    requires { TextRoom starts.old t.now }
    ensures { Over starts.old 0 (row_starts t.now)
        starts.new }
{
    starts[0] = 0;
    put_starts(starts, 1, 0, t);
}

// Puts where each row of a text starts into the first places of `starts`, and answers how many rows
// have content. Refused are a text that any call refuses (1, 2, 3), and a table with fewer places
// than the text has rows (15); then nothing has changed. Places behind the rows stay as they were.
pub fn row_starts(t: &[u32], starts: &mut [u32]) -> Counted
    ensures { FillsTo t.now starts.old result starts.new }
{
    let f = text_check::text_refusal(t);
    if f != 0 {
        return Counted::Refused(f);
    }
    let rows = text::row_count(t);
    if starts.len() < rows {
        return Counted::Refused(15);
    }
    put_rows(starts, t);
    let content = text::content_of(t, rows);
    Counted::Rows(content as u32)
}
