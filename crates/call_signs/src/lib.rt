// The calls for hosts on a list where plus signs are retired (document 02, #112), by numbers: the
// entry, whose refusal 21 has a place, and the list written without those signs.

#![tactic(auto)]

mod entry;
mod plain;

pub use entry::{enter, reply_placed};
pub use plain::without_plus;

// A number, or a refusal: its number in the low half, its place in the high half.
#[derive(Clone, Copy)]
pub enum Placed {
    Value(u32),
    Refused(u64),
}
