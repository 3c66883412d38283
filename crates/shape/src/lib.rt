// The faces of each shape and the price list: see specs/Shapes.antt and specs/Price.antt. The crates
// above draw them.

#![tactic(auto)]

use face::Tally;

// What was written and counted after each of a shape's six stages.
pub type StageTallies = [Tally; 6];

// What drawing one object came to: what was written and counted after each of its six stages, whose
// parts are numbered from `first` on, its price and its log entries. A part is a number, as the mesh's
// spans and so the C interface have it.
#[derive(Clone, Copy)]
pub struct Drawn {
    pub first: u32,
    pub after: StageTallies,
    pub offered: u32,
    pub entries: u32,
}
