// Places in the position's own row.
ghost use Rattle.std.specs.Prelude.{◌≡◌, min};
ghost use Rattle.text.specs.Offsets.{IsLine};
ghost use Rattle.text.specs.Text.{last_col};
ghost use Rattle.positions.specs.Positions.{in_row};

use text::offsets::row_len;
use text::{Line, Position};

// The position at another column of its row.
pub(crate) fn in_row(p: Position, col: usize) -> Position
    ensures { result ≡ in_row p col }
{
    Position {
        row: p.row,
        col: col,
    }
}

// The column wanted, or the last column of the row where that is before it.
pub(crate) fn to_col(t: &[u32], l: Line, want: usize) -> usize
    requires { IsLine t.now l }
    ensures { result ≡ min want (last_col t.now l.row) }
{
    want.min(row_len(t, l).saturating_sub(1))
}
