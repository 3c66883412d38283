// The lid of a closed outline, as `lid_normal`, `triangulate` and `bridge` of object_mesh.rs: its
// definitions (specs/), what is known of them, and the types that the crates above share.

#![tactic(auto)]

ghost use Rattle.std.specs.Prelude.{◌≡◌};
ghost use Rattle.lid.specs.Marks.{mark_number};

// The numbers of a log entry.
pub const ENTRY_WIDTH: usize = 4;

// A corner's number: the outer corners from 0, then the holes'.
#[derive(Clone, Copy)]
pub struct CornerNumber(pub u32);

// A place in a ring. After a bridge one corner number stands at two places.
#[derive(Clone, Copy)]
pub struct RingPlace(pub usize);

// A flat corner: the pair of f32 on which the lid is cut.
#[derive(Clone, Copy)]
pub struct Flat {
    pub x: f32,
    pub y: f32,
}

// Where a ray meets an edge: at which x, and the place of the edge's rightmost end.
#[derive(Clone, Copy)]
pub struct Hit {
    pub x: f32,
    pub end: RingPlace,
}

// The shallowest slope found so far, and the place where it was found.
#[derive(Clone, Copy)]
pub struct Seen {
    pub slope: f32,
    pub place: RingPlace,
}

// Where a hole is joined: a place of the ring and a place of the hole.
#[derive(Clone, Copy)]
pub struct Bridge {
    pub place: RingPlace,
    pub from: RingPlace,
}

// What a log entry tells.
#[derive(Clone, Copy, PartialEq, Eq)]
pub enum Mark {
    Ear = 1,
    Dropped = 2,
    Left = 3,
    Joined = 4,
    Apart = 5,
    HoleTooSmall = 6,
    LidTooSmall = 7,
}

impl From<Mark> for u32 {
    ghost from_gives = { λ mark n. n ≡ mark_number mark };

    fn from(mark: Mark) -> u32 {
        mark as u32
    }
}

// A corner that is cut off, an ear or one on a straight run: its mark and its place.
#[derive(Clone, Copy)]
pub struct Cut {
    pub mark: Mark,
    pub place: RingPlace,
}

// The corner at a place, b, with the one before it and the one after it.
#[derive(Clone, Copy)]
pub struct Corners {
    pub a: CornerNumber,
    pub b: CornerNumber,
    pub c: CornerNumber,
}

// The ray from a hole's corner m that meets an edge at i, the corner number of the edge's rightmost end, and the sign of the turn of the three.
#[derive(Clone, Copy)]
pub struct Ray {
    pub m: Flat,
    pub i: Flat,
    pub end: CornerNumber,
    pub s: f32,
}

// What clipping leaves: how many corners, and how many entries of the log and triangles there then are.
#[derive(Clone, Copy)]
pub struct Clipped {
    pub left: usize,
    pub entries: u32,
    pub triangles: u32,
}

// How many corners the rings of an outline have: the outer one, and each hole.
#[derive(Clone, Copy)]
pub struct CornerCounts<'a> {
    pub outer: u32,
    pub holes: &'a [u32],
}

// How many entries of the log and how many triangles were written.
#[derive(Clone, Copy)]
pub struct LidCounts {
    pub entries: u32,
    pub triangles: u32,
}

// What is known of a hole before it is joined: its greatest first coordinate, and whether it is skipped.
#[derive(Clone, Copy)]
pub struct Surveyed {
    pub right: f32,
    pub small: bool,
}

// How many entries skipped holes have in the log, and how many holes are to be joined.
#[derive(Clone, Copy)]
pub struct Prepared {
    pub entries: u32,
    pub holes: usize,
}
