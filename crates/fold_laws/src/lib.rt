// Folds on disk: that reading what was written gives the same list, that every accepted file is
// what the writer would write, and that a file with one byte changed is refused. There is no code
// here; the laws are in proofs/. Document 02, #111.

#![tactic(auto)]
