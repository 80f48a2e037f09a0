// What holds of Vim's own lists: the reader accepts exactly the lists of the grammar, with one
// reading each, and else tells the length of the longest beginning that some list of the grammar
// has. There is no code here; the laws are in proofs/. Document 02, #108.

#![tactic(auto)]
