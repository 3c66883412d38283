// The walls of an outline's holes, hole by hole.
ghost use Rattle.std.specs.Prelude.{◌+◌, ◌*◌, ◌≤◌};
ghost use Rattle.lists.specs.Loops.{join, sum_of};
ghost use Rattle.scene_field.specs.Fields.{counts_at, holes_at};
ghost use Rattle.face.specs.Contract.Drawing.{Draws, CountableOn};
ghost use Rattle.shape.specs.Shapes.{hole_walls};
ghost use Rattle.shape_outline_corners.specs.Contract.Outlines.{CornersIn};

use crate::walls;
use coords_vector::Vector;
use face::Canvas;
use scene_field::u16_at;
use shape_outline_corners::Row;

// The walls of all holes, which face into them; their counts are at `counts`, their corners at `at`.
pub fn hole_walls(
    canvas: &mut Canvas<'_>,
    s: &[u8],
    counts: usize,
    holes: usize,
    at: usize,
    lid: Vector,
)
    requires holes_bound { (counts + 2 * holes ≤ at) × CornersIn s.now at (sum_of (λ k. k) (counts_at s.now holes counts)) }
    requires countable { CountableOn canvas.old (4 * sum_of (λ k. k) (counts_at s.now holes counts)) (2 * sum_of (λ k. k) (counts_at s.now holes counts)) }
    ensures { Draws (join (hole_walls lid) (holes_at s.now (counts_at s.now holes counts) at)) canvas.old canvas.new }
{
    let mut place = at;
    for k in 0..holes {
        let n = u16_at(s, counts + 2 * k) as usize;
        let hole = Row { s, at: place, n };
        let normal = -hole.about(lid);
        walls(canvas, hole, normal, n);
        place += 24 * n;
    }
}
