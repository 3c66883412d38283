// The faces of a cylinder: `cylinder` of object_mesh.rs.

#![tactic(auto)]

ghost use Rattle.std.specs.Prelude.{◌≡◌};
ghost use Rattle.lists.specs.Loops.{list};
ghost use Rattle.float.specs.Number.{zerof};
ghost use Rattle.coords.specs.Coords.{moved};
ghost use Rattle.object.specs.Object.{frame};
ghost use Rattle.face.specs.Contract.Drawing.{CountableOn, Draws};
ghost use Rattle.shape.specs.Shapes.{ring_at, cylinder_side};
ghost use Rattle.shape.specs.Contract.Stages.{cylinder_stages, DrawsStages};

use coords::Point;
use face::Canvas;
use face_draw::quad;
use object::Orientation;
use shape::StageTallies;
use shape_ring_face::{RingPoints, end};

// A point in the solid's own frame.
fn placed(origin: Point, turn: Orientation, u: f32, v: f32, z: f32) -> Point
    ensures { result ≡ moved origin (frame turn u v z) }
{
    origin + object_frame::frame(turn, u, v, z)
}

// The ring points of the end at height z.
fn ring_at(origin: Point, turn: Orientation, radius: f32, z: f32) -> RingPoints
    ensures { result ≡ ring_at origin turn radius z }
{
    let angles = angle_circle::ring_sin_cos();
    let cos = angles.cos;
    let sin = angles.sin;
    let mut ring = [origin; 16];
    for k in 0..16 {
        ring[k] = placed(origin, turn, radius * cos[k], radius * sin[k], z);
    }
    ring
}

// The sides, each from a ring point to the next.
fn cylinder_sides(canvas: &mut Canvas<'_>, bottom: &RingPoints, top: &RingPoints, turn: Orientation)
    requires { CountableOn canvas.old 64 32 }
    ensures { Draws (list (cylinder_side turn bottom.now top.now) 16 0) canvas.old canvas.new }
{
    let angles = angle_circle::side_sin_cos();
    let cos = angles.cos;
    let sin = angles.sin;
    for k in 0..16 {
        let j = (k + 1) % 16;
        let out = object_frame::frame(turn, cos[k], sin[k], 0.0);
        quad(canvas, bottom[k], bottom[j], top[j], top[k], out);
    }
}

// An upright cylinder centred on the origin and rising from it; without a floor unless its height is
// above 0. What was written and counted after its sides, the end at its height and the other end.
pub fn cylinder(
    canvas: &mut Canvas<'_>,
    origin: Point,
    turn: Orientation,
    radius: f32,
    height: f32,
) -> StageTallies
    requires { CountableOn canvas.old 96 60 }
    ensures { DrawsStages (cylinder_stages turn (ring_at origin turn radius zerof) (ring_at origin turn radius height) height) result canvas.old canvas.new }
{
    let bottom = ring_at(origin, turn, radius, 0.0);
    let top = ring_at(origin, turn, radius, height);
    let rings = [bottom, top];
    let up = object_frame::frame(turn, 0.0, 0.0, 1.0);
    cylinder_sides(canvas, &rings[0], &rings[1], turn);
    let sides = canvas.tally;
    end(canvas, &rings[1], up);
    let lid = canvas.tally;
    if height > 0.0 {
        end(canvas, &rings[0], -up);
    }
    let floor = canvas.tally;
    [sides, lid, floor, floor, floor, floor]
}
