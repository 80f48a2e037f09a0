// The bracket of a row that the % key starts from. From motions.rs: the scan of `match_bracket`.
ghost use Rattle.std.specs.Prelude.{◌≡◌};
ghost use Rattle.bracket_kinds.specs.Find.{first_bracket};

use crate::kinds;

// The first round, square or curly bracket at or after a column, or nothing.
pub fn first_bracket(row: &[u32], col: usize) -> Option<usize>
    ensures { result ≡ first_bracket row.now col }
{
    for j in col..row.len() {
        if kinds::is_key_bracket(row[j]) {
            return Some(j);
        }
    }
    None
}
