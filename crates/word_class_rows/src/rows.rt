// From a place to its row, and from a row to its places. The examples are of the rows `ab`, an
// empty one and `c`, with the classes 0 0 4 3 0 4.
ghost use Rattle.std.specs.Prelude.{◌≡◌, ◌+◌};
ghost use Rattle.word_class_rows.specs.Rows.{row_of, rows_of, content_of, end_of, start_of};
ghost use Rattle.word_class_rows.specs.Rows.{StandsAt, Places, Apart, Onward, Backward};

use word_kinds::Spot;

// How many rows end from place a up to place b, b not among them: from 0 to 4 there are 2.
pub fn ends(c: &[u8], a: usize, b: usize) -> usize
    requires { Places c.now a b }
    ensures { row_of c.now a + result ≡ row_of c.now b }
{
    let mut n: usize = 0;
    for i in a..b {
        if word_places::is_end(c, i) {
            n += 1;
        }
    }
    n
}

// How many rows have content, of so many rows: all but an empty last row that is not the only one.
// Here all 3; of the classes 0 4 3, which have 2 rows, 1.
pub fn content_of(c: &[u8], rows: usize) -> usize
    requires { rows ≡ rows_of c.now }
    ensures { result ≡ content_of c.now }
{
    if word_hops::last_empty(c) {
        return rows.saturating_sub(1);
    }
    rows
}

// Another place with its row: from 0 in row 0 to 4, which is in row 2.
pub fn moved(c: &[u8], p: Spot, i: usize) -> Spot
    requires { Apart c.now p i }
    ensures { StandsAt c.now i result }
{
    if i < p.at {
        return Spot {
            row: p.row - ends(c, i, p.at),
            at: i,
        };
    }
    Spot {
        row: p.row + ends(c, p.at, i),
        at: i,
    }
}

// The place that ends a row, from a place in it or before it: of row 1, from 0, place 3.
pub fn row_end(c: &[u8], p: Spot, row: usize) -> usize
    requires { Onward c.now p row }
    ensures { result ≡ end_of c.now row }
{
    let mut r = p.row;
    let mut i = p.at;
    // A `loop`: the row has its end, so that behind a `for` there would be nothing to answer.
    loop {
        if word_places::is_end(c, i) {
            if r == row {
                return i;
            }
            r += 1;
        }
        i += 1;
    }
}

// The first place of a row, from a place in it or behind it: of row 1, from 4, place 3.
pub fn row_start(c: &[u8], p: Spot, row: usize) -> usize
    requires { Backward c.now p row }
    ensures { result ≡ start_of c.now row }
{
    let mut r = p.row;
    for i in (0..p.at).rev() {
        if word_places::is_end(c, i) {
            if r == row {
                return i + 1;
            }
            r -= 1;
        }
    }
    0
}
