// Points: three f32, by value, with the operations of coords.rs in its order.

#![tactic(auto)]

pub mod thin;

ghost use Rattle.std.specs.Prelude.{◌≡◌};
ghost use Rattle.coords.specs.Coords.{diff, moved, lerp, finite_point};

use coords_vector::Vector;
use std::ops::{Add, Sub};

// A point in the world: metres, right-handed, Z up. `==` is by value: -0.0 equals +0.0.
#[derive(Clone, Copy, PartialEq)]
pub struct Point {
    pub x: f32,
    pub y: f32,
    pub z: f32,
}

impl Point {
    // The point t of the way to other.
    pub fn lerp(self, other: Point, t: f32) -> Point
        ensures { result ≡ lerp self other t }
    {
        self + (other - self) * t
    }

    pub fn is_finite(self) -> bool
        ensures { result ≡ finite_point self }
    {
        float_sign::finite::is_finite(self.x)
            & float_sign::finite::is_finite(self.y)
            & float_sign::finite::is_finite(self.z)
    }
}

impl Sub for Point {
    type Output = Vector;

    ghost sub_gives = { λ a b r. r ≡ diff a b };

    fn sub(self, other: Point) -> Vector {
        Vector {
            x: self.x - other.x,
            y: self.y - other.y,
            z: self.z - other.z,
        }
    }
}

impl Add<Vector> for Point {
    type Output = Point;

    ghost add_gives = { λ a v r. r ≡ moved a v };

    fn add(self, v: Vector) -> Point {
        Point {
            x: self.x + v.x,
            y: self.y + v.y,
            z: self.z + v.z,
        }
    }
}
