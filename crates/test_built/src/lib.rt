// Stored scenes that are built, computed on the definitions: see specs/ and proofs/. Outlines and lists
// of objects stand apart from solids and sweeps.

#![tactic(auto)]
