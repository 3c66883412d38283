// The lid of a closed outline and the floor under it: cut, and then drawn.

#![tactic(auto)]

mod cut;
pub mod faces;
