// The mesh, spans, account and log of a scene, Measure and Build as definitions, and demand 3 over
// them: see specs/ and proofs/.

#![tactic(auto)]

// The numbers of a span, and of an object's account.
pub const SPAN_WIDTH: usize = 5;

pub const ACCOUNT_WIDTH: usize = 4;
