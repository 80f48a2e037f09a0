// Find on one row. From motions.rs, `find_char_on_line`.
ghost use Rattle.std.specs.Prelude.{◌≡◌, ◌≤◌, length};
ghost use Rattle.row_search.specs.Nearest.{first_in, last_below};
ghost use Rattle.row_search.specs.Find.{is, start_ahead, start_back, nearest_on, find_on_row};

// The first place at or after a column that holds a code point, or nothing.
fn next_on_row(row: &[u32], from: usize, sought: u32) -> Option<usize>
    ensures { result ≡ first_in (is row.now sought) from (length row.now) }
{
    for i in from..row.len() {
        if row[i] == sought {
            return Some(i);
        }
    }
    None
}

// The last place before a column that holds a code point, or nothing.
fn last_on_row(row: &[u32], upto: usize, sought: u32) -> Option<usize>
    requires { upto ≤ length row.now }
    ensures { result ≡ last_below (is row.now sought) upto }
{
    for b in (0..upto).rev() {
        if row[b] == sought {
            return Some(b);
        }
    }
    None
}

// The column where a search to the right starts: the next, or the one after where an adjacent match
// is skipped.
fn start_ahead(row: &[u32], col: usize, sought: u32, again: bool) -> usize
    requires { col ≤ length row.now }
    ensures { result ≡ start_ahead row.now col sought again }
{
    let from = col + 1;
    if again {
        if from < row.len() {
            if row[from] == sought {
                return col + 2;
            }
        }
    }
    from
}

// The column before which a search to the left starts: the caret's, or one back where an adjacent
// match is skipped.
fn start_back(row: &[u32], col: usize, sought: u32, again: bool) -> usize
    requires { col ≤ length row.now }
    ensures { result ≡ start_back row.now col sought again }
{
    if again {
        if col > 0 {
            let b = col - 1;
            if row[b] == sought {
                return b;
            }
        }
    }
    col
}

// The match next to a column, to the right or to the left, or nothing.
fn nearest(row: &[u32], col: usize, sought: u32, forward: bool, again: bool) -> Option<usize>
    requires { col ≤ length row.now }
    ensures { result ≡ nearest_on row.now col sought forward again }
{
    if forward {
        let from = start_ahead(row, col, sought, again);
        return next_on_row(row, from, sought);
    }
    let upto = start_back(row, col, sought, again);
    last_on_row(row, upto, sought)
}

// The column that `find_char_on_line` lands on from a column of the row, or nothing.
pub fn find_on_row(
    row: &[u32],
    col: usize,
    sought: u32,
    forward: bool,
    till: bool,
    skip: bool,
) -> Option<usize>
    requires { col ≤ length row.now }
    ensures { result ≡ find_on_row row.now col sought forward till skip }
{
    let f = nearest(row, col, sought, forward, skip & till);
    match f {
        Some(i) => {
            if till {
                if forward {
                    return Some(i - 1);
                }
                return Some(i + 1);
            }
            Some(i)
        }
        None => None,
    }
}
