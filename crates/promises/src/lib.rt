// What is promised of all calls at once: document 01's examples under one theorem, that no call has
// two results, that every position written stands in its text, where the % key lands, and which
// counts add. There is no code here; the statements are in specs/, their proofs in proofs/.

#![tactic(auto)]
