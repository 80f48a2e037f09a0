// The text inside a pair: the innermost pair of a kind of bracket around a position, and its two
// ranges. From document 02, #101; pairs are those of demand 3 of the request.

#![tactic(auto)]

pub mod around;

use text::Position;

// Two half-open ranges of positions: what stands between the brackets of a pair, `from` to `to`,
// and that with the brackets, `opening` to `past`. Both start in the row of the open bracket and
// end in the row of the close.
#[derive(Clone, Copy)]
pub struct Ranges {
    pub opening: Position,
    pub from: Position,
    pub to: Position,
    pub past: Position,
}

// The answer of `inner_pair`: the ranges of the innermost pair, that no pair encloses the position,
// or the number of a refusal.
#[derive(Clone, Copy)]
pub enum Inner {
    Pair(Ranges),
    None,
    Refused(u32),
}
