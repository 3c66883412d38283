// What the quote program prints, and the room that a scene's mesh, account and
// log take at most, by the scene's length: definitions and proofs only.

#![tactic(auto)]
