// The ellipse inscribed in a section, sixteen points about its centre, and the faces over such rings.
ghost use Rattle.std.specs.Prelude.{◌≡◌};
ghost use Rattle.lists.specs.Loops.{list};
ghost use Rattle.coords_vector.specs.Vectors.{plus, scale};
ghost use Rattle.coords.specs.Coords.{diff, moved};
ghost use Rattle.face.specs.Contract.Drawing.{CountableOn, Draws};
ghost use Rattle.shape.specs.Shapes.{ellipse_point, ellipse, tube_faces};
ghost use Rattle.shape_round_sweep.specs.Contract.Rings.{ellipse_of};

use coords::Point;
use coords_vector::Vector;
use face::Canvas;
use object::Section;
use shape_ring_face::RingPoints;

#[derive(Clone, Copy)]
pub struct Ellipse {
    pub centre: Point,
    pub ring: RingPoints,
}

pub fn centre(s: Section) -> Point
    ensures { result ≡ (ellipse s).centre }
{
    s.left.base.lerp(s.right.top, 0.5)
}

fn ellipse_point(centre: Point, across: Vector, up: Vector, cos: f32, sin: f32) -> Point
    ensures { result ≡ moved (moved centre (scale across cos)) (scale up sin) }
{
    centre + across * cos + up * sin
}

fn ellipse_points(centre: Point, across: Vector, up: Vector) -> RingPoints
    ensures { result ≡ list (ellipse_point centre across up) 16 0 }
{
    let angles = angle_circle::ring_sin_cos();
    let cos = angles.cos;
    let sin = angles.sin;
    let mut ring = [centre; 16];
    for k in 0..16 {
        ring[k] = ellipse_point(centre, across, up, cos[k], sin[k]);
    }
    ring
}

// The ellipse of a section.
pub fn inscribed(s: Section) -> Ellipse
    ensures { ellipse_of result ≡ ellipse s }
{
    let c = centre(s);
    let across = s.left.base.lerp(s.left.top, 0.5) - c;
    let up = s.left.top.lerp(s.right.top, 0.5) - c;
    Ellipse {
        centre: c,
        ring: ellipse_points(c, across, up),
    }
}

// Away from the two centres, over the four corners of a side.
fn side_direction(ca: Point, cb: Point, ak: Point, aj: Point, bj: Point, bk: Point) -> Vector
    ensures { result ≡ plus (plus (plus (diff ak ca) (diff aj ca)) (diff bk cb)) (diff bj cb) }
{
    (ak - ca) + (aj - ca) + (bk - cb) + (bj - cb)
}

// The sixteen sides between two ellipses.
pub fn tube(canvas: &mut Canvas<'_>, a: &Ellipse, b: &Ellipse)
    requires { CountableOn canvas.old 64 32 }
    ensures { Draws (tube_faces (ellipse_of a.now) (ellipse_of b.now)) canvas.old canvas.new }
{
    for k in 0..16 {
        let j = (k + 1) % 16;
        let ak = a.ring[k];
        let aj = a.ring[j];
        let bj = b.ring[j];
        let bk = b.ring[k];
        let out = side_direction(a.centre, b.centre, ak, aj, bj, bk);
        face_draw::quad(canvas, ak, aj, bj, bk, out);
    }
}
