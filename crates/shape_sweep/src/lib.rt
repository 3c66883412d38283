// `sweep` of object_mesh.rs: the faces between neighbouring sections, and a cap at each end. The
// sections are decoded two at a time where they lie in the scene.

#![tactic(auto)]

ghost use Rattle.std.specs.Prelude.{◌≡◌, [], ◌∷◌, ◌+◌, ◌*◌, ◌≤◌, length};
ghost use Rattle.std.specs.Float.Ieee.{neg};
ghost use Rattle.float.specs.Number.{zerof};
ghost use Rattle.coords_vector.specs.Vectors.{vector};
ghost use Rattle.coords.specs.Coords.{diff};
ghost use Rattle.face.specs.Contract.Drawing.{CountableOn, Draws};
ghost use Rattle.scene_field.specs.Fields.{sections_at};
ghost use Rattle.shape.specs.Shapes.{pair_faces, cap};
ghost use Rattle.shape.specs.Contract.Stages.{sweep_stages, DrawsStages};

use coords::Point;
use coords_vector::Vector;
use face::Canvas;
use face_draw::quad;
use object::Section;
use scene_point::{point_at, section_at};
use shape::StageTallies;
use shape_section::ends::end_places;
use shape_section::{is_flat, is_widthless};

// To the left of the way from a to b.
fn side_direction(a: Point, b: Point) -> Vector
    ensures { result ≡ vector (neg (diff b a).y) (diff b a).x zerof }
{
    let along = b - a;
    Vector {
        x: -along.y,
        y: along.x,
        z: 0.0,
    }
}

// The faces between two sections.
fn pair(canvas: &mut Canvas<'_>, a: Section, b: Section)
    requires { CountableOn canvas.old 16 8 }
    ensures { Draws (pair_faces a b) canvas.old canvas.new }
{
    let al = a.left;
    let ar = a.right;
    let bl = b.left;
    let br = b.right;
    let left = side_direction(al.base, bl.base);
    quad(canvas, al.base, bl.base, bl.top, al.top, left);
    if is_widthless(a) & is_widthless(b) {
        return;
    }
    quad(canvas, ar.base, br.base, br.top, ar.top, -left);
    quad(canvas, al.top, bl.top, br.top, ar.top, Vector::Z);
    if is_flat(a) & is_flat(b) {
        return;
    }
    quad(canvas, al.base, bl.base, br.base, ar.base, -Vector::Z);
}

// The face over a section.
fn cap(canvas: &mut Canvas<'_>, a: Section, out: Vector)
    requires { CountableOn canvas.old 4 2 }
    ensures { Draws (cap a out ∷ []) canvas.old canvas.new }
{
    let l = a.left;
    let r = a.right;
    quad(canvas, l.base, r.base, r.top, l.top, out);
}

// The sweep of the n sections from place `at` on: what was written and counted after the pairs and
// after the caps. No struct for `s`, `at` and `n`: it would be taken apart here at once.
pub fn sweep(canvas: &mut Canvas<'_>, s: &[u8], at: usize, n: usize) -> StageTallies
    requires { (at + 48 * n ≤ length s.now) × CountableOn canvas.old (16 * n) (8 * n) }
    ensures { DrawsStages (sweep_stages (sections_at s.now n at)) result canvas.old canvas.new }
{
    if n == 0 {
        return [canvas.tally; 6];
    }
    let first = section_at(s, at);
    let mut a = first;
    for k in 1..n {
        let b = section_at(s, at + 48 * k);
        pair(canvas, a, b);
        a = b;
    }
    let pairs = canvas.tally;
    let p = end_places(at, n);
    cap(canvas, first, first.left.base - point_at(s, p.second));
    cap(canvas, a, a.left.base - point_at(s, p.previous));
    let caps = canvas.tally;
    [pairs, pairs, pairs, caps, caps, caps]
}
