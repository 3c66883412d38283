// How many tests ear clipping makes, bounded on the definitions: see specs/ and proofs/.

#![tactic(auto)]
