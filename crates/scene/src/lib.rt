// A scene: document 01, sections 1 and 2, up to refusal 7. No table of objects is made: a
// checking pass goes over the bytes, and later passes read each record again where it lies.

#![tactic(auto)]

pub mod headers;
pub mod kinds;
pub mod layout;
