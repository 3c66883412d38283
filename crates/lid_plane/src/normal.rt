// The steps of `lid_normal`: a caller reads an outline's corners one at a time.
ghost use Rattle.std.specs.Prelude.{◌≡◌};
ghost use Rattle.lid_plane.specs.Plane.{rise_step};
ghost use Rattle.lid_plane.specs.Contract.Steps.{area_normal_at, lid_normal_from};

use coords::Point;
use coords_vector::Vector;
use float::MIN_AREA;
use object::Corner;

// Twice the vector area of a polygon so far, with the edge from p to q; `first` is its first corner.
pub fn area_normal_step(first: Point, p: Point, q: Point, sum: Vector) -> Vector
    ensures { result ≡ area_normal_at first p q sum }
{
    sum + (p - first).cross(q - first)
}

// The rises from base to top so far, with one more corner's.
pub fn rise_step(sum: Vector, c: Corner) -> Vector
    ensures { result ≡ rise_step sum c }
{
    sum + (c.top - c.base)
}

// The lid's normal, from the vector area of the tops and the sum of the rises: away from the bases, or
// up where they coincide with the tops.
pub fn lid_normal_from(area: Vector, rise: Vector) -> Vector
    ensures { result ≡ lid_normal_from area rise }
{
    let n = area.normalize_or(Vector::Z);
    let away = n.dot(rise);
    if float_sign::abs(away) > MIN_AREA {
        return n * float_sign::signum(away);
    }
    if n.z < 0.0 {
        return -n;
    }
    n
}
