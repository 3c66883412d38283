// The lid of a closed outline: the corners laid flat, and the lid cut.
ghost use Rattle.std.specs.Prelude.{◌≡◌, ◌+◌, ◌*◌, ◌<◌, ◌≤◌, length, take};
ghost use Rattle.scene_field.specs.Fields.{counts_at};
ghost use Rattle.lid_plane.specs.Plane.{flatten};
ghost use Rattle.lid.specs.Contract.Written.{LidWritten};
ghost use Rattle.shape_outline_corners.specs.Contract.Outlines.{points_at, HoldsPoints, points_of, lid_at, OutlineHolds};
ghost use Rattle.shape_outline_lid.specs.Contract.LaidFlat.{CornersLaid};

use coords_vector::Vector;
use lid::{CornerCounts, LidCounts};
use lid_flat::Flats;
use lid_plane::axes::{first_axis, flat_corner};
use lid_triangulate::triangulate;
use object::MOST_HOLES;
use scene_field::u16_in;
use scene_point::point_at;
use shape_outline_corners::{OutlineAt, Row};

// Lays points flat on the lid's plane: their first coordinates go to the front of `work`, the second
// ones behind them. By index, as both are stored in the one lent buffer.
fn lay_flat(row: Row<'_>, lid: Vector, work: &mut [f32])
    requires { HoldsPoints row × (2 * row.n ≤ length work.old) }
    ensures { CornersLaid (flatten lid (points_of row.entry)) row.entry.n work }
{
    let n = row.n;
    let e1 = first_axis(lid);
    let e2 = lid.cross(e1);
    for k in 0..n {
        let f = flat_corner(
            point_at(row.s, row.at),
            e1,
            e2,
            point_at(row.s, row.at + 24 * k),
        );
        work[k] = f.x;
        work[n + k] = f.y;
    }
}

// Reads the counts at `at`.
fn read_counts(s: &[u8], at: usize, counts: &mut [u32])
    requires { at + 2 * length counts.old ≤ length s.now }
    ensures { counts.new ≡ counts_at s.now (length counts.old) at }
{
    for (k, count) in counts.iter_mut().enumerate() {
        *count = u16_in(s, at + 2 * k) as u32;
    }
}

// Cuts the lid of an outline, with room to lay its corners flat.
pub fn cut(
    s: &[u8],
    o: OutlineAt,
    work: &mut [f32],
    log: &mut [u32],
    triangles: &mut [u32],
) -> LidCounts
    requires { OutlineHolds s.now o × (2 * o.n ≤ length work.old) }
    ensures lid_written { LidWritten (lid_at s.now o.i o.outer o.holes) log 0 triangles result }
    ensures corners_laid { CornersLaid (flatten o.lid (points_at s.now o.n (o.at + 12))) o.n work }
{
    let n = o.n as usize;
    let tops = Row {
        s,
        at: o.at + 12,
        n,
    };
    lay_flat(tops, o.lid, work);
    let mut room = [0; MOST_HOLES];
    let counts = &mut room[..o.holes];
    read_counts(s, o.i + 4, counts);
    let flat: &[f32] = work;
    let polygon = Flats {
        xs: &flat[..n],
        ys: &flat[n..],
    };
    let counts = CornerCounts {
        outer: o.outer,
        holes: counts,
    };
    triangulate(polygon, counts, log, triangles)
}
