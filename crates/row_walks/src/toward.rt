// A direction of +1 or -1, by which a signed row steps, and the row beside a row.
ghost use Rattle.std.specs.Prelude.{◌≡◌};
ghost use Rattle.text.specs.Offsets.{line_at};
ghost use Rattle.row_walks.specs.Toward.{dir_of, onward, StepReady};

// +1 on the way down, -1 on the way up.
pub fn direction(forward: bool) -> i64
    ensures { result ≡ dir_of forward }
{
    if forward { 1 } else { -1 }
}

// The row beside a row, with its start.
pub fn beside(t: &[u32], forward: bool, l: text::Line) -> text::Line
    requires { StepReady t.now forward l }
    ensures { result ≡ line_at t.now (onward forward l.row) }
{
    if forward {
        return text::offsets::next_line(t, l);
    }
    text::offsets::prev_line(t, l)
}
