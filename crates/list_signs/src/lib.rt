// Plus signs of a keyword list that are retired: the entry that refuses a list with one, and the
// converter that writes a list without them. Document 02, #112.

#![tactic(auto)]

mod convert;
mod entry;
mod marks;

pub use convert::without_plus;
pub use entry::enter;
use keywords::KeywordSpec;

// What a list is entered as: refusal 0 and the table of `KeywordSpec::parse`, or the refusal's
// number and the empty table. The place is that of the first retired sign for 21, and else 0.
#[derive(Drop)]
pub struct Entered {
    pub refusal: u32,
    pub place: usize,
    pub spec: KeywordSpec,
}

// How many code points were written, or the refusal's number.
#[derive(Clone, Copy)]
pub enum Plain {
    Made(usize),
    Refused(u32),
}
