// What the calls on one row share: the check of its code points, and the answer that is a column.
// From document 01, "Refusal numbers", 1 and 2. Rule 3 is about texts: a row holds any scalar
// values.

#![tactic(auto)]

ghost use Rattle.std.specs.Prelude.{◌≡◌};
ghost use Rattle.row_check.specs.Row.{row_refusal};

// A column, of characters or of cells, or the number that the call is refused for.
#[derive(Clone, Copy)]
pub enum Column {
    At(u32),
    Refused(u32),
}

// 1 for a row of more than 1,048,576 code points, 2 for a value that is no scalar value, else 0.
pub fn row_refusal(row: &[u32]) -> u32
    ensures { result ≡ row_refusal row.now }
{
    if row.len() > 1048576 {
        return 1;
    }
    if !chars::all_scalar(row) {
        return 2;
    }
    0
}
