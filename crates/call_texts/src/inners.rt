// The innermost pair around a position.
ghost use Rattle.std.specs.Prelude.{◌≡◌};
ghost use Rattle.call_bytes.specs.Reply.{Replied};
ghost use Rattle.call_texts.specs.Inners.{surrounded, Fits, inner_by, inner};

use bracket_inner::{Inner, around};
use bracket_kinds::Kind;

// Puts 1 and the rows and columns of four positions into `out`: start and end of what stands
// between the brackets, start and end of that with them; or nine times 0 where there is no pair.
// Answers 0, or the refusal's number.
fn show(m: Inner, out: &mut [u32; 9]) -> u32
    requires { Fits m }
    ensures { Replied (surrounded m) out.old result out.new }
{
    match m {
        Inner::Pair(r) => {
            *out = [
                1,
                r.from.row as u32,
                r.from.col as u32,
                r.to.row as u32,
                r.to.col as u32,
                r.opening.row as u32,
                r.opening.col as u32,
                r.past.row as u32,
                r.past.col as u32,
            ];
            0
        }
        Inner::None => {
            *out = [0, 0, 0, 0, 0, 0, 0, 0, 0];
            0
        }
        Inner::Refused(f) => f,
    }
}

// `inner_pair` of the kind that a number stands for: 0 round, 1 square, 2 curly, 3 angle; 100 where
// it stands for none.
fn inner_by(kind: u32, t: &[u32], row: u32, col: u32) -> Inner
    ensures { result ≡ inner_by kind row col t.now }
{
    match kind {
        0 => around::inner_pair(t, Kind::Round, row, col),
        1 => around::inner_pair(t, Kind::Square, row, col),
        2 => around::inner_pair(t, Kind::Curly, row, col),
        3 => around::inner_pair(t, Kind::Angle, row, col),
        _ => Inner::Refused(100),
    }
}

// `inner_pair` on code points.
pub fn inner_pair(kind: u32, text: &[u32], row: u32, col: u32, out: &mut [u32; 9]) -> u32
    ensures { Replied (inner kind row col text.now) out.old result
        out.new }
{
    show(inner_by(kind, text, row, col), out)
}
