// Document 01, section 1: the limits of a scene, and how many bytes its fields take.

pub const MOST_BYTES: usize = 16_777_216;

pub const MOST_OBJECTS: u32 = 65_536;

pub const MOST_SECTIONS: u16 = 4_096;

pub const CORNER_BYTES: usize = 24;

pub const SECTION_BYTES: usize = 48;

// Of a solid.
pub const POSITION_BYTES: usize = 12;

pub const ORIENTATION_BYTES: usize = 48;
