// The thin test: whether a vector, or a triangle's cross product, is shorter than the limit, told by its
// square, for every value; and which limits a call may name.
ghost use Rattle.std.specs.Prelude.{◌≡◌};
ghost use Rattle.std.specs.Float.Ieee.{lt};
ghost use Rattle.float.specs.Contract.Thin.{thin_bound};
ghost use Rattle.coords_vector.specs.Vectors.{norm};
ghost use Rattle.coords.specs.Coords.{no_area, allowed_limit};

use crate::Point;
use coords_vector::Vector;
use float::MIN_AREA;

// The square of the middle between the limit and the f32 before it: a number's root is below the
// limit where the number is below this. It is 0 for a limit that no root is below.
fn thin_bound(limit: f32) -> f64
    ensures { result ≡ thin_bound limit }
{
    if 0.0 < limit {
        let b = f32::to_bits(limit) as u64;
        let m = f64::from_bits(0x3800_0000_0000_0000 + (2 * b - 1) * 0x1000_0000);
        return m * m;
    }
    0.0
}

// Whether the root of a number that is not below zero is below the limit that bound is of.
fn shorter(square: f32, bound: f64) -> bool
    ensures { result ≡ lt square bound }
{
    std::num::f32_to_f64_with_nan(square) < bound
}

// Whether a vector's length is below limit. No root is taken.
pub fn shorter_than(v: Vector, limit: f32) -> bool
    ensures { result ≡ lt (norm v) limit }
{
    shorter(v.dot(v), thin_bound(limit))
}

// Whether twice a triangle's area is below limit.
pub fn no_area(limit: f32, a: Point, b: Point, c: Point) -> bool
    ensures { result ≡ no_area limit a b c }
{
    shorter_than((b - a).cross(c - a), limit)
}

// Whether a call may name this limit: from 1e-6 up to 1. A NaN is neither.
pub fn is_allowed(limit: f32) -> bool
    ensures { result ≡ allowed_limit limit }
{
    (MIN_AREA <= limit) & (limit <= 1.0)
}
