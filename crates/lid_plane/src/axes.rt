// The directions of a lid's plane, and a corner laid flat on it: the lid's normal or its reverse as a ring
// runs about it, the plane's first axis, and a top's coordinates along both axes.
ghost use Rattle.std.specs.Prelude.{◌≡◌};
ghost use Rattle.lid_plane.specs.Plane.{first_axis};
ghost use Rattle.lid_plane.specs.Contract.Steps.{about_from, flat_on, axis_across};

use coords::Point;
use coords_vector::Vector;
use lid::Flat;

// The lid's normal or its reverse, from the vector area of a ring's bases.
pub fn about_from(area: Vector, lid: Vector) -> Vector
    ensures { result ≡ about_from area lid }
{
    lid * float_sign::signum(area.dot(lid))
}

// The first axis of the lid's plane.
pub fn first_axis(lid: Vector) -> Vector
    ensures { result ≡ first_axis lid }
{
    let e = axis_across(lid);
    (e - lid * e.dot(lid)).normalize_or(Vector::ZERO)
}

// The axis of the world that lies far from the lid's normal.
fn axis_across(lid: Vector) -> Vector
    ensures { result ≡ axis_across lid }
{
    if float_sign::abs(lid.z) > 0.5 {
        return Vector::X;
    }
    Vector::Z
}

// A top on the lid's plane, by its coordinates from the first top along both axes.
pub fn flat_corner(first: Point, e1: Vector, e2: Vector, p: Point) -> Flat
    ensures { result ≡ flat_on first e1 e2 p }
{
    let d = p - first;
    Flat {
        x: d.dot(e1),
        y: d.dot(e2),
    }
}
