// One flat face, `face` of object_mesh.rs, drawn on a canvas behind what stands there.

#![tactic(auto)]

pub mod points;

ghost use Rattle.std.specs.Prelude.{◌≡◌, ◌+◌, ◌<◌, ◌/◌, ◌^◌, eqb, length, IsTrue};
ghost use Rattle.coords.specs.Buffers.{vertices_in};
ghost use Rattle.face_judge.specs.Contract.Offered.{TrianglesAmong};
ghost use Rattle.face.specs.Faces.{quad};
ghost use Rattle.face.specs.Contract.Drawing.{face_in, CountableOn, DrawsFace};
ghost use Rattle.face_draw.specs.Contract.Sums.{counted_with, judge_on, StoresKept};

use crate::points::put_points;
use coords::Point;
use coords_vector::Vector;
use face::{Canvas, Tally};
use face_judge::quad::thin_in_quad;
use face_judge::{Judge, Sum};

// What was counted, with a face of n points whose triangles came to the sum.
#[tactic(auto, unfolding(crate::specs::Contract::Sums::counted_with))]
fn counted_with(t: Tally, s: Sum, n: u32) -> Tally
    requires { (t.vertices + n < 2 ^ 32) × (t.kept + s.kept < 2 ^ 32) × (t.thin + s.thin < 2 ^ 32) }
    ensures { result ≡ counted_with (eqb s.kept 0) n s t }
{
    if s.kept == 0 {
        return Tally {
            thin: t.thin + s.thin,
            ..t
        };
    }
    Tally {
        vertices: t.vertices + n,
        kept: t.kept + s.kept,
        thin: t.thin + s.thin,
    }
}

// The points of a face whose triangles came to the sum, stored from place at on if one was kept.
#[tactic(auto, unfolding(crate::specs::Contract::Sums::vertices_with, crate::specs::Contract::Sums::normals_with))]
fn store_points(points: &[f32], s: Sum, at: u32, vs: &mut [f32], ns: &mut [f32])
    requires { at + length points.now / 3 < 2 ^ 32 }
    ensures { StoresKept (vertices_in points.now) s at vs ns }
{
    if s.kept == 0 {
        return;
    }
    put_points(points, s.normal, at, vs, ns);
}

// The judge of the next face's triangles.
fn judge_on(canvas: &Canvas<'_>, out: Vector) -> Judge
    requires { canvas.now.before + canvas.now.tally.vertices < 2 ^ 32 }
    ensures { result ≡ judge_on canvas.now out }
{
    Judge {
        limit: canvas.limit,
        out,
        base: canvas.before + canvas.tally.vertices,
        place: canvas.tally.kept,
    }
}

// Whether nothing can be written, as where a scene is measured.
fn has_no_room(canvas: &Canvas<'_>) -> bool
    ensures { IsTrue result → (length canvas.now.vertices.now ≡ 0) × (length canvas.now.normals.now ≡ 0) × (length canvas.now.indices.now ≡ 0) }
{
    canvas.vertices.is_empty() && canvas.normals.is_empty() && canvas.indices.is_empty()
}

// A face of points and triangles lent as numbers, three to one, drawn where the tally says: its kept
// triangles with all its points, or nothing. Numbers and not points, since a lid's share one array with
// its corners laid flat: the library allocates nothing.
pub fn face(canvas: &mut Canvas<'_>, points: &[f32], triangles: &[u32], out: Vector)
    requires { CountableOn canvas.old (length points.now / 3) (length triangles.now / 3) × TrianglesAmong points.now triangles.now }
    ensures { DrawsFace (λ part. face_in part points.now triangles.now out) canvas.old canvas.new }
{
    let t = canvas.tally;
    let s = judge_on(canvas, out).offer_all(points, triangles, canvas.indices);
    store_points(points, s, t.vertices, canvas.vertices, canvas.normals);
    canvas.tally = counted_with(t, s, (points.len() / 3) as u32);
}

// A face of four points, as two triangles from the first, which are judged before the points are lent.
// Without any room they are only counted.
pub fn quad(canvas: &mut Canvas<'_>, a: Point, b: Point, c: Point, d: Point, out: Vector)
    requires { CountableOn canvas.old 4 2 }
    ensures { DrawsFace (λ part. quad part a b c d out) canvas.old canvas.new }
{
    let t = canvas.tally;
    if has_no_room(canvas) {
        let thin = thin_in_quad(a, b, c, d, canvas.limit);
        let s = Sum {
            normal: Vector::ZERO,
            kept: 2 - thin,
            thin,
        };
        canvas.tally = counted_with(t, s, 4);
        return;
    }
    let s = judge_on(canvas, out).offer_quad(a, b, c, d, canvas.indices);
    let points = [a.x, a.y, a.z, b.x, b.y, b.z, c.x, c.y, c.z, d.x, d.y, d.z];
    store_points(&points, s, t.vertices, canvas.vertices, canvas.normals);
    canvas.tally = counted_with(t, s, 4);
}
