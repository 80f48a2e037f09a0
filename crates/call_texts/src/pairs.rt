// Brackets and their partners.
ghost use Rattle.call_bytes.specs.Reply.{Replied};
ghost use Rattle.call_texts.specs.Partners.{partnered, Fits, partner};

use bracket_walks::Partner;

// Puts 1 and the partner's row and column into `out`, or 0, 0 and 0 where there is none; answers 0,
// or the refusal's number.
fn show(m: Partner, out: &mut [u32; 3]) -> u32
    requires { Fits m }
    ensures { Replied (partnered m) out.old result out.new }
{
    match m {
        Partner::There(p) => {
            *out = [1, p.row as u32, p.col as u32];
            0
        }
        Partner::None => {
            *out = [0, 0, 0];
            0
        }
        Partner::Refused(f) => f,
    }
}

// `matching_bracket_pos` on code points.
pub fn matching_bracket_pos(text: &[u32], row: u32, col: u32, out: &mut [u32; 3]) -> u32
    ensures { Replied (partner row col text.now) out.old result
        out.new }
{
    show(
        brackets::matching::matching_bracket_pos(text, row, col),
        out,
    )
}
