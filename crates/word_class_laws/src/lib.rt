// The classes determine each step: what the first engine of the word motions reads of a text at a
// place, the slice of classes tells too. There is no code here; the statement is in specs/, its
// proof in proofs/.

#![tactic(auto)]
