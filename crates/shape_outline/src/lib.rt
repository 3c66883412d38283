// Outlines, `outline` of object_mesh.rs, with their price.

#![tactic(auto)]

ghost use Rattle.std.specs.Prelude.{◌≡◌, cond, ◌+◌, ◌-◌, ◌*◌, ◌≤◌, ◌<◌, ◌^◌};
ghost use Rattle.coords_vector.specs.Vectors.{zero_v};
ghost use Rattle.scene_field.specs.Layout.{most_corners};
ghost use Rattle.face.specs.Contract.Drawing.{CountableOn, Draws};
ghost use Rattle.lid_plane.specs.Plane.{about};
ghost use Rattle.shape.specs.Contract.Drawn.{DrawsObject};
ghost use Rattle.shape_outline_corners.specs.Contract.Outlines.{HoldsCorners, corners_of, outline_shape, Placed, OutlineHolds};
ghost use Rattle.shape_outline.specs.Contract.Measures.{outline_in, walls_in};

use coords_vector::Vector;
use face::{Canvas, Tally};
use shape::Drawn;
use shape_outline_corners::{OutlineAt, Row};
use shape_outline_lid::faces::cap;
use shape_outline_walls::holes::hole_walls;
use shape_outline_walls::walls;

// The normal that `walls` takes for the outer corners: the lid's or its reverse, so that the walls face
// out, or zero where the outline is open.
fn outer_normal(outer: Row<'_>, closed: bool, lid: Vector) -> Vector
    requires { HoldsCorners outer }
    ensures { result ≡ cond closed (about (corners_of outer.entry) lid) zero_v }
{
    if closed {
        return outer.about(lid);
    }
    Vector::ZERO
}

// The edges of n corners: all round, or from the first to the last.
fn edges(n: usize, closed: bool) -> usize
    ensures { result ≡ cond closed n (n - 1) }
{
    if closed {
        return n;
    }
    n.saturating_sub(1)
}

// The walls of an outline: the outer ones, then the holes'.
fn all_walls(canvas: &mut Canvas<'_>, s: &[u8], o: OutlineAt, closed: bool)
    requires { OutlineHolds s.now o × CountableOn canvas.old (4 * o.n) (2 * o.n) }
    ensures { Draws (walls_in s.now closed o) canvas.old canvas.new }
{
    let n = o.outer as usize;
    let outer = Row { s, at: o.at, n };
    let normal = outer_normal(outer, closed, o.lid);
    walls(canvas, outer, normal, edges(n, closed));
    hole_walls(canvas, s, o.i + 4, o.holes, o.at + 24 * n, o.lid);
}

// The price of an open outline of n corners.
fn open_price(outer: u32, n: u32) -> u32
    requires { (outer ≤ n) × (n ≤ most_corners) }
    ensures { result ≡ 2 * (outer - 1) + 2 * (n - outer) }
{
    2 * outer.saturating_sub(1) + 2 * (n - outer)
}

// The outline whose counts are at i.
fn outline_at(s: &[u8], i: usize, closed: bool, outer: u16, holes: u16, corners: u32) -> OutlineAt
    requires { Placed s.now i outer holes corners }
    ensures { result ≡ outline_in s.now i closed outer holes corners }
{
    let h = holes as usize;
    let at = i + 4 + 2 * h;
    let ring = Row {
        s,
        at,
        n: outer as usize,
    };
    let all = Row {
        s,
        at,
        n: corners as usize,
    };
    OutlineAt {
        i,
        at,
        outer: outer as u32,
        holes: h,
        n: corners,
        lid: ring.lid_normal(),
        high: closed && all.has_height(),
    }
}

// An outline whose counts are at i, with its log.
pub fn outline(
    canvas: &mut Canvas<'_>,
    s: &[u8],
    i: usize,
    closed: bool,
    outer: u16,
    holes: u16,
    corners: u32,
    log: &mut [u32],
) -> Drawn
    requires { Placed s.now i outer holes corners × (3 * canvas.old.before < 2 ^ 32) }
    ensures { DrawsObject (outline_shape s.now i closed outer holes) result canvas.old canvas.new log }
{
    let o = outline_at(s, i, closed, outer, holes, corners);
    canvas.tally = Tally::NOTHING;
    all_walls(canvas, s, o, closed);
    let t = canvas.tally;
    if closed {
        let c = cap(canvas, s, o, log);
        let lid = c.lid;
        let floor = canvas.tally;
        return Drawn {
            first: 1,
            after: [t, lid, floor, floor, floor, floor],
            offered: c.offered,
            entries: c.entries,
        };
    }
    Drawn {
        first: 1,
        after: [t; 6],
        offered: open_price(o.outer, o.n),
        entries: 0,
    }
}
