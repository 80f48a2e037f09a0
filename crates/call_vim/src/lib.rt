// The calls for hosts on Vim's own keyword lists (document 02, #108), by numbers: a list read,
// whose refusal 17 has a place, a character by it, and a list read and written again.

#![tactic(auto)]

mod list;

pub use list::{vim_list, vim_write};
