// The lid of a closed outline and the floor under it: the lid's triangles drawn over the tops and under
// the bases.
ghost use Rattle.std.specs.Prelude.{◌≡◌, cond, ◌+◌, ◌*◌, ◌<◌, ◌≤◌, ◌/◌, length};
ghost use Rattle.std.proofs.lemmas.List.Edits.{sets};
ghost use Rattle.lists.specs.Each.{Each};
ghost use Rattle.coords.specs.Buffers.{vertex_numbers};
ghost use Rattle.scene_field.specs.Layout.{most_corners};
ghost use Rattle.face.specs.Contract.Faces.{TriangleLow};
ghost use Rattle.face_triangle.specs.Contract.Triangles.{triangles_in};
ghost use Rattle.face.specs.Contract.Drawing.{CountableOn};
ghost use Rattle.shape.specs.Shapes.{has_height};
ghost use Rattle.shape.specs.Contract.Stages.{DrawsTwo};
ghost use Rattle.shape_outline_corners.specs.Contract.Outlines.{points_at, CornersIn, PointsIn, all_in, lid_in, OutlineHolds};
ghost use Rattle.shape_outline_lid.specs.Contract.Caps.{cap_stages, Caps};

use crate::cut::cut;
use face::{Canvas, Tally};
use face_draw::face;
use scene_point::point_at;
use shape_outline_corners::OutlineAt;

// The numbers of n points at `at`. No `Row`: n is a u32 here, as places in the buffer are.
fn put_points(s: &[u8], at: usize, n: u32, points: &mut [f32])
    requires { PointsIn s.now at n }
    ensures { points.new ≡ sets points.old 0 (vertex_numbers (points_at s.now n at)) }
{
    for k in 0..n {
        let p = point_at(s, at + 24 * (k as usize));
        buffer::put_three(points, k, p.x, p.y, p.z);
    }
}

// What was written and counted after the lid, with the outline's price and the entries of its log.
#[derive(Clone, Copy)]
pub struct Capped {
    pub lid: Tally,
    pub offered: u32,
    pub entries: u32,
}

// The lid over an outline's corners and, where they have height, the floor under them: what was written
// and counted after the lid.
fn lid_faces(
    canvas: &mut Canvas<'_>,
    s: &[u8],
    o: OutlineAt,
    triangles: &[u32],
    points: &mut [f32],
) -> Tally
    requires corners_in { CornersIn s.now o.at o.n × (3 * o.n ≤ length points.old) × (o.high ≡ has_height (all_in s.now o)) }
    requires countable { CountableOn canvas.old (2 * o.n) (2 * (length triangles.now / 3)) × Each (TriangleLow o.n) (triangles_in triangles.now) }
    ensures { DrawsTwo (cap_stages s.now o (triangles_in triangles.now)) result canvas.old canvas.new }
{
    let m = 3 * (o.n as usize);
    put_points(s, o.at + 12, o.n, points);
    face(canvas, &points[..m], triangles, o.lid);
    let lid = canvas.tally;
    if o.high {
        put_points(s, o.at, o.n, points);
        face(canvas, &points[..m], triangles, -o.lid);
    }
    lid
}

// The price of a closed outline of n corners, whose lid has some triangles.
fn closed_price(n: u32, high: bool, triangles: u32) -> u32
    requires { (n ≤ most_corners) × (triangles ≤ 612) }
    ensures { result ≡ 2 * n + triangles + cond high triangles 0 }
{
    if high {
        return 2 * n + triangles + triangles;
    }
    2 * n + triangles
}

// The lid and the floor of an outline, with its log. The floats have room for the corners laid flat and
// then for the points of a face, the numbers for the lid's triangles.
fn cap_in<const FLOATS: usize, const NUMBERS: usize>(
    canvas: &mut Canvas<'_>,
    s: &[u8],
    o: OutlineAt,
    log: &mut [u32],
) -> Capped
    requires outline_holds { OutlineHolds s.now o × (o.high ≡ has_height (all_in s.now o)) × CountableOn canvas.old 1024 1224 }
    requires n_in_bounds { (3 * o.n ≤ FLOATS) × (3 * length (lid_in s.now o).triangles ≤ NUMBERS) }
    requires sizes { (FLOATS ≤ 1536) × (NUMBERS ≤ 1836) }
    ensures { Caps s.now o result canvas.old canvas.new log }
{
    let mut work = [0.0; FLOATS];
    let mut ts = [0; NUMBERS];
    let d = cut(s, o, &mut work, log, &mut ts);
    let c = 3 * (d.triangles as usize);
    let lid = lid_faces(canvas, s, o, &ts[..c], &mut work);
    Capped {
        lid,
        offered: closed_price(o.n, o.high, d.triangles),
        entries: d.entries,
    }
}

// The lid and the floor of an outline, with its log. Where corners and holes are few the working
// buffers are short: clearing long ones took a fifth of the time of a roof of 4 corners.
pub fn cap(canvas: &mut Canvas<'_>, s: &[u8], o: OutlineAt, log: &mut [u32]) -> Capped
    requires { OutlineHolds s.now o × (o.high ≡ has_height (all_in s.now o)) × CountableOn canvas.old 1024 1224 }
    ensures { Caps s.now o result canvas.old canvas.new log }
{
    if (o.n as usize) + 3 * o.holes <= 32 {
        return cap_in::<96, 102>(canvas, s, o, log);
    }
    cap_in::<1536, 1836>(canvas, s, o, log)
}
