// The corners of an outline where they lie in the scene's bytes: the place of the one after a corner, and
// whether they have height.

#![tactic(auto)]

pub mod normal;

ghost use Rattle.std.specs.Prelude.{◌≡◌, not, ◌+◌, ◌*◌, ◌<◌, ◌≤◌, ◌^◌, length};
ghost use Rattle.lists.specs.Loops.{next};
ghost use Rattle.coords.specs.Coords.{same_point};
ghost use Rattle.scene_field.specs.Fields.{corner_at};
ghost use Rattle.shape.specs.Shapes.{has_height};
ghost use Rattle.shape_outline_corners.specs.Contract.Outlines.{HoldsCorners, corners_of};

use coords_vector::Vector;
use scene_point::corner_at;

// A row of corners where they lie in the scene's bytes, or of points of corners: n of them, 24 bytes
// apart, from place `at` on.
#[derive(Clone, Copy)]
pub struct Row<'a> {
    pub s: &'a [u8],
    pub at: usize,
    pub n: usize,
}

// An outline where it lies: its counts are at `i` and its corners, n in all, at `at`. `lid` is the
// normal of its lid, and `high` tells whether a closed one has a floor.
#[derive(Clone, Copy)]
pub struct OutlineAt {
    pub i: usize,
    pub at: usize,
    pub outer: u32,
    pub holes: usize,
    pub n: u32,
    pub lid: Vector,
    pub high: bool,
}

impl Row<'_> {
    // Where the one after number k lies; behind the last one comes the first.
    pub fn next_place(self, k: usize) -> usize
        requires { (self.at + 24 * self.n < 2 ^ 64) × (k < self.n) }
        ensures { (result ≡ self.entry.at + 24 * next self.entry.n k) × (result + 24 ≤ self.entry.at + 24 * self.entry.n) }
    {
        if k + 1 == self.n {
            return self.at;
        }
        self.at + 24 * (k + 1)
    }

    // Whether the base of some corner differs from its top.
    pub fn has_height(self) -> bool
        requires { HoldsCorners self }
        ensures { result ≡ has_height (corners_of self.entry) }
    {
        (0..self.n).any(|k| rises(self.s, self.at + 24 * k))
    }
}

// Whether the base of the corner at `at` differs from its top.
fn rises(s: &[u8], at: usize) -> bool
    requires { at + 24 ≤ length s.now }
    ensures { result ≡ not (same_point (corner_at s.now at).base (corner_at s.now at).top) }
{
    let c = corner_at(s, at);
    c.base != c.top
}
