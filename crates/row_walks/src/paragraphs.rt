// Paragraphs: `find_paragraph` of motions.rs. A walk goes from row start to row start, so that it
// reads the text once.
ghost use Rattle.std.specs.Prelude.{◌≡◌, ◌-◌};
ghost use Rattle.text.specs.Offsets.{IsLine};
ghost use Rattle.row_walks.specs.Paragraphs.{is_void, RoundReady, ParagraphReady};
ghost use Rattle.row_walks.specs.Paragraphs.{RoundFrom, ParagraphFrom};

use crate::Round;
use crate::toward::{beside, direction};
use text::Line;

// Whether a row is empty.
fn is_void(t: &[u32], l: Line) -> bool
    requires { IsLine t.now l }
    ensures { result ≡ is_void t.now l.row }
{
    let at = l.start;
    if at >= t.len() {
        return true;
    }
    t[at] == 10
}

// One round: on to the first empty row behind one that isn't, or to the row at the edge. The row is
// signed: at the top edge it stands at minus one before it is stepped back.
fn paragraph_round(t: &[u32], forward: bool, last: usize, from: Line) -> Round
    requires { RoundReady t.now last from }
    ensures { RoundFrom t.now forward from.row result }
{
    let end = last as i64;
    let dir = direction(forward);
    let mut curr = from.row as i64;
    let mut start = from.start;
    let mut skip = false;
    // A `loop`: the way out lies in the middle of a turn, and the step is signed.
    loop {
        let here = Line {
            row: curr as usize,
            start,
        };
        let void = is_void(t, here);
        let passed = skip | !void;
        if passed & void {
            return Round::Found(here);
        }
        curr += dir;
        if (curr < 0) | (curr > end) {
            curr -= dir;
            let edge = Line {
                row: curr as usize,
                start,
            };
            return Round::RanOff(edge);
        }
        let l = beside(t, forward, here);
        start = l.start;
        skip = passed;
    }
}

// `find_paragraph`: so many rounds, where `last` is the last row with content. A round that runs
// off with others still owed leads nowhere.
pub fn find_paragraph(t: &[u32], forward: bool, last: usize, from: Line, n: usize) -> Option<Line>
    requires { ParagraphReady t.now last from n }
    ensures { ParagraphFrom t.now forward (n - 1) from.row result }
{
    let mut here = from;
    let mut owed = n - 1;
    // A `loop`: each turn begins where the one before ended, and each way out is in a `match`.
    loop {
        match paragraph_round(t, forward, last, here) {
            Round::Found(l) => {
                if owed == 0 {
                    return Some(l);
                }
                owed -= 1;
                here = l;
            }
            Round::RanOff(l) => {
                if owed == 0 {
                    return Some(l);
                }
                return None;
            }
        }
    }
}
