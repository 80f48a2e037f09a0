// Plain lists: what is said of them in several crates, once. There is no code here; the definitions
// are in specs/, their laws in proofs/.

#![tactic(auto)]
