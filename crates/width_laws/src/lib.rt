// What holds of widths under both settings, over every call that depends on them: wide is never
// less than narrow, and a text without characters of class A has the same answers. Document 02,
// #107. There is no code here; the statements are in specs/, their proofs in proofs/.

#![tactic(auto)]
