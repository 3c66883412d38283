// An end of a prism: a ring of sixteen points as one face.

#![tactic(auto)]

ghost use Rattle.std.specs.Prelude.{◌≡◌};
ghost use Rattle.coords.specs.Buffers.{vertex_numbers};
ghost use Rattle.face.specs.Contract.Drawing.{CountableOn, DrawsFace};
ghost use Rattle.shape.specs.Shapes.{end_face};

use coords::Point;
use coords_vector::Vector;
use face::Canvas;

// The sixteen points of a ring.
pub type RingPoints = [Point; 16];

// The triangles from the first point, three numbers to one.
const FAN: [u32; 42] = [
    0, 1, 2, 0, 2, 3, 0, 3, 4, 0, 4, 5, 0, 5, 6, 0, 6, 7, 0, 7, 8, 0, 8, 9, 0, 9, 10, 0, 10, 11, 0,
    11, 12, 0, 12, 13, 0, 13, 14, 0, 14, 15,
];

// The points' coordinates, three to a point.
fn numbers_of(ring: &RingPoints) -> [f32; 48]
    ensures { result ≡ vertex_numbers ring.now }
{
    let mut numbers = [0.0f32; 48];
    for (k, p) in ring.iter().enumerate() {
        numbers[3 * k] = p.x;
        numbers[3 * k + 1] = p.y;
        numbers[3 * k + 2] = p.z;
    }
    numbers
}

pub fn end(canvas: &mut Canvas<'_>, ring: &RingPoints, out: Vector)
    requires { CountableOn canvas.old 16 14 }
    ensures { DrawsFace (end_face ring.now out) canvas.old canvas.new }
{
    let numbers = numbers_of(ring);
    let fan = FAN;
    face_draw::face(canvas, &numbers, &fan, out);
}
