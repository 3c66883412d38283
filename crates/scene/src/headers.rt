// What a record of an accepted scene holds.
use object::Extent;

// Where in the scene's bytes a solid's position, orientation and sizes stand, and the sizes.
#[derive(Clone, Copy)]
pub struct SolidAt {
    pub position: usize,
    pub orientation: usize,
    pub sizes: usize,
    pub extent: Extent,
}

// What a record holds behind its kind and id. Positions, orientations, corners and sections stay in
// the scene: `shape_of` says where.
#[derive(Clone, Copy)]
pub enum Body {
    Solid(SolidAt),
    // `corners` counts the outer ones and those of the holes.
    Outline {
        closed: bool,
        outer: u16,
        holes: u16,
        corners: u32,
    },
    Sweep {
        round: bool,
        sections: u16,
    },
}

// The next record starts `size` bytes behind the start of this one.
#[derive(Clone, Copy)]
pub struct Header {
    pub id: u32,
    pub body: Body,
    pub size: usize,
}
