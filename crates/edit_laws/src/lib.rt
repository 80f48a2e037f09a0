// The laws of edits: what is accepted comes out accepted, after any run of them; a delete of what
// an insert put in takes it back; a caret's character stays under it; folds keep their order. There
// is no code here; the statements are in specs/, their proofs in proofs/.

#![tactic(auto)]
