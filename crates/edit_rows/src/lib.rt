// Edits of a lent text that keep the table of its row starts: to text, folds and caret they do what
// `edits` does, and the table and the number of rows with content are those of the new text. The
// table goes by the rows of the edit; the new text is not counted. From document 02, #106.

#![tactic(auto)]

ghost use Rattle.std.specs.Prelude.{◌≡◌, [], take};
ghost use Rattle.text.specs.Text.{content_rows};
ghost use Rattle.edit_positions.specs.After.{text_after};
ghost use Rattle.edit_rows.specs.Rows.{KeepsTo};
ghost use Rattle.edit_rows.specs.Known.{Checkable, RowsChecked, Makeable, Counted, MakesRows};

use edit_checks::{Checked, Sizes};
use edits::Left;
use motions::Caret;
use text::Position;

// What an accepted edit leaves: what it leaves without a table, and how many rows have content.
#[derive(Clone, Copy)]
pub struct Kept {
    pub left: Left,
    pub content: u32,
}

// The answer of an edit that keeps a table: what it leaves, or the number that it is refused with.
#[derive(Clone, Copy)]
pub enum EditedRows {
    Done(Kept),
    Refused(u32),
}

// What the check of the table finds out: its refusal, and how many rows the text has before the
// edit and after it.
#[derive(Clone, Copy)]
pub struct Rows {
    pub refusal: u32,
    pub before: usize,
    pub after: usize,
}

// Code points that are none.
const NONE: [u32; 1] = [0];

// The check of the table of a text with so many rows, once the edit itself is not refused: 15 where
// it has no place for each row before the edit and for each after it, 16 where it is not the
// text's.
fn check_rows(
    text: &[u32],
    starts: &[u32],
    len: usize,
    before: usize,
    content: u32,
    p: Position,
    q: Position,
    points: &[u32],
) -> Rows
    requires { Checkable text.now len before p q points.now }
    ensures { RowsChecked (take len text.now) starts.now content
        (text_after (take len text.now) p q points.now) result }
{
    let t = &text[..len];
    let after = before - (q.row - p.row) + text::separators(points);
    let need = before.max(after);
    let refusal = row_table::check::table_refusal(t, before, need, starts, content);
    Rows {
        refusal: refusal,
        before: before,
        after: after,
    }
}

// How many rows have content in a text of so many rows, the first `len` places of a buffer.
fn content_in(text: &[u32], len: usize, rows: usize) -> u32
    requires { Counted text.now len rows }
    ensures { result ≡ content_rows (take len text.now) }
{
    let t = &text[..len];
    text::content_of(t, rows) as u32
}

// The edit itself, once its checks have refused nothing: the table first, by the text of before.
fn make_rows(
    text: &mut [u32],
    folds: &mut [u32],
    starts: &mut [u32],
    s: Sizes,
    at: Checked,
    rows: Rows,
    p: Position,
    q: Position,
    points: &[u32],
    k: Caret,
) -> Kept
    requires { Makeable text.old folds.old starts.old s at rows p q points.now k }
    ensures { MakesRows text.old folds.old starts.old s p q
        points.now k result text.new folds.new starts.new }
{
    edit_starts::keep_starts(starts, rows.before, p.row, q.row, at.from, at.to, points);
    let left = edits::make(text, folds, s, at, p, q, points, k);
    let content = content_in(text, left.sizes.len, rows.after);
    Kept {
        left: left,
        content: content,
    }
}

// The stretch from p up to q gives way to `points`. Refused are what `edits` refuses, in its order,
// then a table with fewer places than the text has rows before the edit or after it (15), and one
// that is not the text's, or that stands beside another number of rows with content (16); then
// nothing has changed. Places of the table that become free are 0.
fn edit_rows(
    text: &mut [u32],
    folds: &mut [u32],
    starts: &mut [u32],
    s: Sizes,
    content: u32,
    p: Position,
    q: Position,
    points: &[u32],
    k: Caret,
) -> EditedRows
    ensures { KeepsTo text.old folds.old
        starts.old s content
        p q points.now k result text.new folds.new
        starts.new }
{
    let x = Position {
        row: k.row as usize,
        col: k.col as usize,
    };
    let at = edit_checks::check(text, folds, s, p, q, points, x);
    if at.refusal != 0 {
        return EditedRows::Refused(at.refusal);
    }
    let rows = check_rows(text, starts, s.len, at.rows, content, p, q, points);
    if rows.refusal != 0 {
        return EditedRows::Refused(rows.refusal);
    }
    EditedRows::Done(make_rows(text, folds, starts, s, at, rows, p, q, points, k))
}

// Puts `points` at the position p of a text, as `edits::insert` does, and keeps the table.
pub fn insert_rows(
    text: &mut [u32],
    folds: &mut [u32],
    starts: &mut [u32],
    s: Sizes,
    content: u32,
    p: Position,
    points: &[u32],
    k: Caret,
) -> EditedRows
    ensures { KeepsTo text.old folds.old
        starts.old s content
        p p points.now k result text.new folds.new
        starts.new }
{
    edit_rows(text, folds, starts, s, content, p, p, points, k)
}

// Takes away what stands from p up to q, as `edits::delete` does, and keeps the table.
pub fn delete_rows(
    text: &mut [u32],
    folds: &mut [u32],
    starts: &mut [u32],
    s: Sizes,
    content: u32,
    p: Position,
    q: Position,
    k: Caret,
) -> EditedRows
    ensures { KeepsTo text.old folds.old
        starts.old s content
        p q [] k result text.new folds.new starts.new }
{
    let none = NONE;
    edit_rows(text, folds, starts, s, content, p, q, &none[..0], k)
}
