// The faces of a box: `cuboid` of object_mesh.rs.

#![tactic(auto)]

ghost use Rattle.std.specs.Prelude.{◌≡◌};
ghost use Rattle.float.specs.Number.{zerof, onef};
ghost use Rattle.object.specs.Object.{frame};
ghost use Rattle.face.specs.Contract.Drawing.{CountableOn, DrawsFace};
ghost use Rattle.shape.specs.Shapes.{on_axis, box_point, box_face};
ghost use Rattle.shape.specs.Contract.Stages.{box_stages, DrawsStages, DrawsTwo};
ghost use Rattle.shape_box.specs.Contract.Axes.{axis_of, depth_along, sides_of};

use coords::Point;
use coords_vector::Vector;
use face::{Canvas, Tally};
use face_draw::quad;
use object::Orientation;
use shape::StageTallies;

// A box's place, turn and sizes.
#[derive(Clone, Copy)]
struct Placed {
    origin: Point,
    turn: Orientation,
    length: f32,
    width: f32,
    height: f32,
}

// An axis of a solid's own frame.
#[derive(Clone, Copy)]
enum Axis {
    X,
    Y,
    Z,
}

impl Axis {
    // The direction of the axis in the network.
    #[tactic(auto, unfolding(crate::specs::Contract::Axes::axis_of, shape::specs::Shapes::on_axis))]
    fn direction(self, turn: Orientation) -> Vector
        ensures { result ≡ on_axis (axis_of self) onef zerof zerof (frame turn) }
    {
        match self {
            Axis::X => object_frame::frame(turn, 1.0, 0.0, 0.0),
            Axis::Y => object_frame::frame(turn, 0.0, 1.0, 0.0),
            Axis::Z => object_frame::frame(turn, 0.0, 0.0, 1.0),
        }
    }
}

impl Placed {
    // The corner at 0 or 1 along each axis, centred across and rising up.
    #[tactic(auto, unfolding(shape::specs::Shapes::box_point))]
    fn point(self, x: f32, y: f32, z: f32) -> Point
        ensures { result ≡ box_point self.origin self.turn self.length self.width self.height x y z }
    {
        self.origin
            + object_frame::frame(
                self.turn,
                (x - 0.5) * self.length,
                (y - 0.5) * self.width,
                z * self.height,
            )
    }

    // The corner at side along the axis, and at p and q along the two axes after it, going round.
    #[tactic(auto, unfolding(crate::specs::Contract::Axes::axis_of, shape::specs::Shapes::on_axis))]
    fn corner(self, axis: Axis, side: f32, p: f32, q: f32) -> Point
        ensures { result ≡ on_axis (axis_of axis) side p q (box_point self.origin self.turn self.length self.width self.height) }
    {
        match axis {
            Axis::X => self.point(side, p, q),
            Axis::Y => self.point(q, side, p),
            Axis::Z => self.point(p, q, side),
        }
    }

    // How deep the box is along the axis.
    #[tactic(auto, unfolding(crate::specs::Contract::Axes::depth_along))]
    fn depth(self, axis: Axis) -> f32
        ensures { result ≡ depth_along self axis }
    {
        match axis {
            Axis::X => self.length,
            Axis::Y => self.width,
            Axis::Z => self.height,
        }
    }
}

// The face at side along the axis.
fn box_face(canvas: &mut Canvas<'_>, b: Placed, axis: Axis, side: f32, out: Vector)
    requires { CountableOn canvas.old 4 2 }
    ensures { DrawsFace (box_face b.origin b.turn b.length b.width b.height (axis_of axis) side out) canvas.old canvas.new }
{
    quad(
        canvas,
        b.corner(axis, side, 0.0, 0.0),
        b.corner(axis, side, 1.0, 0.0),
        b.corner(axis, side, 1.0, 1.0),
        b.corner(axis, side, 0.0, 1.0),
        out,
    );
}

// The face along the axis, then the one against it unless the box has no depth here and it lies on
// the first: what was written and counted between them.
fn box_sides(canvas: &mut Canvas<'_>, b: Placed, axis: Axis) -> Tally
    requires { CountableOn canvas.old 8 4 }
    ensures { DrawsTwo (sides_of b axis) result canvas.old canvas.new }
{
    let out = axis.direction(b.turn);
    box_face(canvas, b, axis, 1.0, out);
    let along = canvas.tally;
    let depth = b.depth(axis);
    if depth == 0.0 {
        return along;
    }
    box_face(canvas, b, axis, 0.0, -out);
    along
}

// A box centred on the origin in plan and rising from it: what was written and counted after each of
// its six faces.
pub fn cuboid(
    canvas: &mut Canvas<'_>,
    origin: Point,
    turn: Orientation,
    length: f32,
    width: f32,
    height: f32,
) -> StageTallies
    requires { CountableOn canvas.old 24 12 }
    ensures { DrawsStages (box_stages origin turn length width height) result canvas.old canvas.new }
{
    let b = Placed {
        origin,
        turn,
        length,
        width,
        height,
    };
    let axes = [Axis::X, Axis::Y, Axis::Z];
    let mut after = [canvas.tally; 6];
    // One call for all axes is compiled into the loop; three were slower.
    for (k, axis) in axes.iter().enumerate() {
        after[2 * k] = box_sides(canvas, b, *axis);
        after[2 * k + 1] = canvas.tally;
    }
    after
}
