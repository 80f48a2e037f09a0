// A lent table against the text: whether it holds the text's own row starts.
ghost use Rattle.std.specs.Prelude.{◌≡◌};
ghost use Rattle.row_table.specs.Table.{holds_rows, table_refusal, Asked, Needed};
ghost use Rattle.row_table.specs.Ascend.{GoingOn, GoesOn};

// Whether the starts from the place `from` on go on as those before it do, up to `rows` of them:
// each above the last one, and behind a separator. The text is read once a row.
pub fn go_on(t: &[u32], from: usize, rows: usize, starts: &[u32]) -> bool
    requires { GoingOn t.now starts.now from rows }
    ensures { GoesOn t.now starts.now rows result }
{
    let mut last = starts[from - 1] as usize;
    for i in from..rows {
        let s = starts[i] as usize;
        if s <= last {
            return false;
        }
        if s > t.len() {
            return false;
        }
        if t[s - 1] != 10 {
            return false;
        }
        last = s;
    }
    true
}

// Whether a text has so many rows, and the first places hold its row starts. They do if they begin
// with 0, ascend, and stand behind a separator each: no fewer than there are rows, they are all of
// them. It may be asked with more rows than there are, and says no.
fn holds(t: &[u32], rows: usize, starts: &[u32]) -> bool
    requires { Asked t.now starts.now rows }
    ensures { result ≡ holds_rows t.now rows starts.now }
{
    if starts[0] != 0 {
        return false;
    }
    go_on(t, 1, rows, starts)
}

// 15 where the table has fewer places than `need`, 16 where it or the number of rows with content
// is not that of the text, which has so many rows; else 0.
pub fn table_refusal(t: &[u32], rows: usize, need: usize, starts: &[u32], content: u32) -> u32
    requires { Needed t.now rows need }
    ensures { result ≡ table_refusal need t.now starts.now content }
{
    if starts.len() < need {
        return 15;
    }
    if !holds(t, rows, starts) {
        return 16;
    }
    if content as usize != text::content_of(t, rows) {
        return 16;
    }
    0
}
