// A Vim list written from its table, each end as it was spelt: numbers without leading zeros,
// characters as they are. Document 02, #108.

#![tactic(auto)]

mod points;
mod tokens;
mod writer;

pub use writer::write;

// How many code points were written, or the refusal's number.
#[derive(Clone, Copy)]
pub enum VimWritten {
    Made(usize),
    Refused(u32),
}
