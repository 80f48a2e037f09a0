// A run of jumps over one text: all is checked once, and then each jump costs its own walk. From
// document 02, #114.

#![tactic(auto)]

mod call;
mod leaps;
mod run;

pub use call::jumps;
