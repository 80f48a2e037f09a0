// Out of a closed fold, before a word is sought. The examples are of the rows `ab`, an empty one
// and `c`, with the classes 0 0 4 3 0 4, and a closed fold over the first two.
ghost use Rattle.std.specs.Prelude.{◌≡◌};
ghost use Rattle.word_class_rows.specs.Rows.{end_of, last_of};
ghost use Rattle.word_by_class.specs.Rounds.{jump_fwd, jump_back, RowFrom, ClassRow, Ready};

use word_classes::EMPTY_ROW;
use word_kinds::Spot;

// The place that ends a row, from any place: of row 0, from 4, place 2.
fn end_of(c: &[u8], p: Spot, row: usize) -> usize
    requires { RowFrom c.now p row }
    ensures { result ≡ end_of c.now row }
{
    if row < p.row {
        let start = word_class_rows::row_start(c, p, row);
        return word_class_rows::row_end(
            c,
            Spot {
                row: row,
                at: start,
            },
            row,
        );
    }
    word_class_rows::row_end(c, p, row)
}

// The last character of a row, or its only place where it is empty: of row 0 place 1, of row 1
// place 3.
fn row_last(c: &[u8], p: Spot, row: usize) -> usize
    requires { ClassRow c.now p row }
    ensures { result ≡ last_of c.now row }
{
    let end = end_of(c, p, row);
    if word_places::class_at(c, end) == EMPTY_ROW {
        return end;
    }
    end - 1
}

// From a closed fold to the last character of its last row: `w` and `e` begin there. From 0 to 3,
// the empty row; from 4, which is in no closed fold, to 4.
pub fn jump_fwd(c: &[u8], folds: &[u32], rows: usize, content: usize, p: Spot) -> usize
    requires { Ready c.now folds.now rows content p }
    ensures { result ≡ jump_fwd c.now folds.now p.at }
{
    match folds::closed_fold_at(folds, rows, content, p.row) {
        Some((first, last)) => row_last(c, p, last),
        None => p.at,
    }
}

// From a closed fold to the first place of its first row: `b` begins there. From 3 to 0.
pub fn jump_back(c: &[u8], folds: &[u32], rows: usize, content: usize, p: Spot) -> usize
    requires { Ready c.now folds.now rows content p }
    ensures { result ≡ jump_back c.now folds.now p.at }
{
    match folds::closed_fold_at(folds, rows, content, p.row) {
        Some((first, last)) => word_class_rows::row_start(c, p, first),
        None => p.at,
    }
}
