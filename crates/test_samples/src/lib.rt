// Scenes as bytes and buffers compared, for the tests that are computed on the definitions; Build on lent
// buffers, and stored scenes that are refused, with document 01's answers: see specs/ and proofs/.

#![tactic(auto)]
