// The price of a shape, document 01, section 5: computed from the record, never from what was drawn. The
// price of an outline needs its lid's triangles, and stands beside the outline.

#![tactic(auto)]

pub mod solid;
pub mod sweep;
