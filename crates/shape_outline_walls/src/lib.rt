// The walls of a ring of an outline, `walls` of object_mesh.rs: one from each corner to the next.

#![tactic(auto)]

pub mod holes;

ghost use Rattle.std.specs.Prelude.{◌*◌, ◌≤◌};
ghost use Rattle.face.specs.Contract.Drawing.{Draws, CountableOn};
ghost use Rattle.shape.specs.Shapes.{walls};
ghost use Rattle.shape_outline_corners.specs.Contract.Outlines.{HoldsCorners, corners_of};

use coords_vector::Vector;
use face::Canvas;
use scene_point::corner_at;
use shape_outline_corners::Row;

// The first `edges` walls of a row of corners.
pub fn walls(canvas: &mut Canvas<'_>, row: Row<'_>, normal: Vector, edges: usize)
    requires { HoldsCorners row × (edges ≤ row.n) × CountableOn canvas.old (4 * edges) (2 * edges) }
    ensures { Draws (walls (corners_of row.entry) normal edges) canvas.old canvas.new }
{
    for k in 0..edges {
        let a = corner_at(row.s, row.at + 24 * k);
        let b = corner_at(row.s, row.next_place(k));
        let out = (b.base - a.base).cross(normal);
        face_draw::quad(canvas, a.base, b.base, b.top, a.top, out);
    }
}
