// A struct lent to a call: what such a call is as a contract and as code, and the proof that it meets its contract, for a struct of any
// fields, any count of numbers of one width and an answer of any width. A plain call copies the struct out, calls by value and stores back
// what that replied (proofs/Lent.antt); a spared one looks first, and stores nothing where that would change nothing (proofs/Spares.antt);
// one that decides looks first, and does one of two lent calls (proofs/Decides.antt). No code stands here: a crate joins by naming its
// struct and its reply (proofs/Lendable.antt).
#![tactic(auto)]
