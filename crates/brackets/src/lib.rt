// Brackets: the partner of the bracket at a position, and where the % key goes to.
// From motions.rs, "Find / match", and demand 3 of the request.

#![tactic(auto)]

pub mod matching;
