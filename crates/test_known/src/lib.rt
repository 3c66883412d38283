// Known shapes, and the most that objects can come to, computed on the definitions: see specs/ and
// proofs/.

#![tactic(auto)]
