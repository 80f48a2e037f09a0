// The partner of a bracket: the walk to it, forward from an open bracket and back from a close one.
// From motions.rs, "Find / match", and demand 3 of the request.

#![tactic(auto)]

pub mod walks;

use text::Position;

// The answer of `matching_bracket_pos`: the Rust's `Some` or `None`, or the number of a refusal.
#[derive(Clone, Copy)]
pub enum Partner {
    There(Position),
    None,
    Refused(u32),
}
