// Numbers and their rounding: see specs/. The crates `float_sign`, `float_sqrt`, `float_narrow` and
// `coords` (its module `thin`) have the code.

#![tactic(auto)]

// Twice the area, in square metres, below which a triangle has none worth drawing or colliding with. A
// ring of less area is skipped, a corner of less turn is straight, and a rise of less does not tell a side.
pub const MIN_AREA: f32 = 1e-6;
