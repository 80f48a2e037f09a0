// One character on or back, from row to row. The walks go on offsets, a step for each round, and
// stop where the text does, whatever the count.
ghost use Rattle.std.specs.Prelude.{◌≡◌};
ghost use Rattle.positions.specs.Positions.{Accepted};
ghost use Rattle.lists.specs.Rounds.{rounds};
ghost use Rattle.steps.specs.Steps.{times, space_fwd, backspace_back};

use positions::Entry;
use text::Position;

// On by so many characters, over the ends of rows.
pub fn space_fwd(t: &[u32], p: Position, e: Entry, count: u32) -> Position
    requires { Accepted t.now p e }
    ensures { result ≡ rounds (space_fwd t.now) (times count) p }
{
    let mut row = p.row;
    let mut start = e.start;
    let mut at = e.start + p.col;
    for _ in 0..(count as usize).max(1) {
        if at >= t.len() {
            return Position {
                row,
                col: at - start,
            };
        }
        let next = at + 1;
        if t[at] == 10 {
            row += 1;
            start = next;
            at = next;
        } else if next >= t.len() {
            return Position {
                row,
                col: at - start,
            };
        } else if t[next] == 10 {
            row += 1;
            start = next + 1;
            at = next + 1;
        } else {
            at = next;
        }
    }
    Position {
        row,
        col: at - start,
    }
}

// Back by so many characters, over the ends of rows.
pub fn backspace_back(t: &[u32], p: Position, e: Entry, count: u32) -> Position
    requires { Accepted t.now p e }
    ensures { result ≡ rounds (backspace_back t.now) (times count) p }
{
    let mut row = p.row;
    let mut at = e.start + p.col;
    for _ in 0..(count as usize).max(1) {
        if at == 0 {
            return Position { row: 0, col: 0 };
        }
        at -= 1;
        if t[at] == 10 {
            row -= 1;
            if at > 0 && t[at - 1] != 10 {
                at -= 1;
            }
        }
    }
    let l = text::offsets::up(t, row, at, 0);
    let col = at - l.start;
    Position { row, col }
}
