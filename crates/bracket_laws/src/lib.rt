// The laws of pairing: what demand 3 of the request asks of partners, and where the % key lands and
// stays, over the answers of `brackets`. There is no code here; the statements are in specs/, their
// proofs in proofs/.

#![tactic(auto)]
