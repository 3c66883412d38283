// Vectors: three f32, by value, with the operations of coords.rs in its order.

#![tactic(auto)]

ghost use Rattle.std.specs.Prelude.{◌≡◌};
ghost use Rattle.coords_vector.specs.Vectors.{plus, less, scale, negate, dot, cross, normalize_or};

use std::ops::{Add, Mul, Neg, Sub};

// A displacement between points, or a direction.
#[derive(Clone, Copy)]
pub struct Vector {
    pub x: f32,
    pub y: f32,
    pub z: f32,
}

impl Vector {
    pub const ZERO: Vector = Vector {
        x: 0.0,
        y: 0.0,
        z: 0.0,
    };

    pub const X: Vector = Vector {
        x: 1.0,
        y: 0.0,
        z: 0.0,
    };

    pub const Z: Vector = Vector {
        x: 0.0,
        y: 0.0,
        z: 1.0,
    };

    pub fn dot(self, other: Vector) -> f32
        ensures { result ≡ dot self other }
    {
        self.x * other.x + self.y * other.y + self.z * other.z
    }

    pub fn cross(self, other: Vector) -> Vector
        ensures { result ≡ cross self other }
    {
        Vector {
            x: self.y * other.z - self.z * other.y,
            y: self.z * other.x - self.x * other.z,
            z: self.x * other.y - self.y * other.x,
        }
    }

    // At unit length, or fallback where the length is zero or not finite.
    pub fn normalize_or(self, fallback: Vector) -> Vector
        ensures { result ≡ normalize_or self fallback }
    {
        let len = float_sqrt::sqrt(self.dot(self));
        if float_sign::finite::is_finite(len) & (0.0 < len) {
            self * (1.0 / len)
        } else {
            fallback
        }
    }
}

impl Add for Vector {
    type Output = Vector;

    ghost add_gives = { λ a b r. r ≡ plus a b };

    fn add(self, other: Vector) -> Vector {
        Vector {
            x: self.x + other.x,
            y: self.y + other.y,
            z: self.z + other.z,
        }
    }
}

impl Sub for Vector {
    type Output = Vector;

    ghost sub_gives = { λ a b r. r ≡ less a b };

    fn sub(self, v: Vector) -> Vector {
        Vector {
            x: self.x - v.x,
            y: self.y - v.y,
            z: self.z - v.z,
        }
    }
}

impl Mul<f32> for Vector {
    type Output = Vector;

    ghost mul_gives = { λ a k r. r ≡ scale a k };

    fn mul(self, k: f32) -> Vector {
        Vector {
            x: self.x * k,
            y: self.y * k,
            z: self.z * k,
        }
    }
}

impl Neg for Vector {
    type Output = Vector;

    ghost neg_gives = { λ a r. r ≡ negate a };

    fn neg(self) -> Vector {
        Vector {
            x: -self.x,
            y: -self.y,
            z: -self.z,
        }
    }
}
