// What a call for a host is lent, and the form of its answer: bytes, four to a code point, room for
// the code points, and places for numbers. A call answers 0 and fills the places, or answers why it
// is refused and leaves them as they were; `exports` lists the numbers.

#![tactic(auto)]

mod joined;
mod lend;

pub use joined::{fill_three, fill_two};
pub use lend::{fill, reply};

// One number, or a refusal's.
#[derive(Clone, Copy)]
pub enum Told {
    Value(u32),
    Refused(u32),
}
