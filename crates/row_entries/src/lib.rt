// The checks that a call with a table of row starts begins with: text and position as without one,
// then the table. Where it is the text's, the position's row is taken from it, and no row is
// sought. From document 02, #106.

#![tactic(auto)]

ghost use Rattle.std.specs.Prelude.{◌≡◌, ◌+◌};
ghost use Rattle.text.specs.Text.{row_len};
ghost use Rattle.text.specs.Offsets.{row_start};
ghost use Rattle.positions.specs.Positions.{refused_by, entry_of};
ghost use Rattle.row_entries.specs.Entries.{entry_with, Held, HeldRow};

use positions::Entry;
use text::Position;

// Where a row starts, by the table.
fn start_of(t: &[u32], starts: &[u32], rows: usize, content: u32, row: usize) -> usize
    requires { HeldRow t.now starts.now rows content row }
    ensures { result ≡ row_start t.now row }
{
    starts[row] as usize
}

// Where a row ends: before the next start less its separator, or at the end of the text.
fn end_of(t: &[u32], starts: &[u32], rows: usize, content: u32, row: usize) -> usize
    requires { HeldRow t.now starts.now rows content row }
    ensures { result ≡ row_start t.now row + row_len t.now row }
{
    if row + 1 < rows {
        return start_of(t, starts, rows, content, row + 1) - 1;
    }
    t.len()
}

// What `positions::enter` finds out, by the table: nothing of the text is read.
pub fn enter_by(t: &[u32], starts: &[u32], rows: usize, content: u32, p: Position) -> Entry
    requires { Held t.now starts.now rows content }
    ensures { result ≡ entry_of t.now p }
{
    if p.row >= rows {
        return positions::refused(4);
    }
    let start = start_of(t, starts, rows, content, p.row);
    let end = end_of(t, starts, rows, content, p.row);
    if p.col > end - start {
        return positions::refused(4);
    }
    Entry {
        refusal: 0,
        start: start,
        rows: rows,
        content: content as usize,
    }
}

// The checks: the text (1, 2, 3), the position (4), then the table (15, 16).
pub fn enter_rows(t: &[u32], starts: &[u32], content: u32, p: Position) -> Entry
    ensures { result ≡ entry_with t.now starts.now content p }
{
    let f = text_check::text_refusal(t);
    if f != 0 {
        return positions::refused(f);
    }
    let rows = text::row_count(t);
    let g = row_table::check::table_refusal(t, rows, rows, starts, content);
    if g == 0 {
        return enter_by(t, starts, rows, content, p);
    }
    let e = positions::enter(t, p);
    if e.refusal != 0 {
        return e;
    }
    positions::refused(g)
}
