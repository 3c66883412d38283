// The objects of a scene, as object.rs has them: see specs/Object.antt.

#![tactic(auto)]

use coords::Point;

// The limits of an outline: its holes, and its corners with those of its holes.
pub const MOST_HOLES: usize = 32;

pub const MOST_CORNERS: usize = 512;

// One corner of an outline or one edge of a section.
#[derive(Clone, Copy, PartialEq)]
pub struct Corner {
    pub base: Point,
    pub top: Point,
}

// One cross-section of a sweep.
#[derive(Clone, Copy)]
pub struct Section {
    pub left: Corner,
    pub right: Corner,
}

// The sine and the cosine of an angle.
#[derive(Clone, Copy)]
pub struct Pair {
    pub sin: f64,
    pub cos: f64,
}

// A solid's heading, pitch and roll.
#[derive(Clone, Copy)]
pub struct Orientation {
    pub heading: Pair,
    pub pitch: Pair,
    pub roll: Pair,
}

// The volume of a solid: length, width and height, or radius and height.
#[derive(Clone, Copy)]
pub enum Extent {
    Box(f32, f32, f32),
    Cylinder(f32, f32),
    Unsized,
}
