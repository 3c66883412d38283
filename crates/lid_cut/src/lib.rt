// A ring clipped, and what is left of it written, as in `triangulate`.

#![tactic(auto)]

ghost use Rattle.std.specs.Prelude.{◌≡◌, map, ◌+◌, ◌<◌, ◌^◌, length};
ghost use Rattle.lid.specs.Log.{entry};
ghost use Rattle.lid_flat.specs.Flats.{flats_in};
ghost use Rattle.lid.specs.Lid.{last_triangle};
ghost use Rattle.lid.specs.Contract.Written.{log_with, triangles_with, LidWritten};
ghost use Rattle.lid_cut.specs.Contract.CutRing.{ring_lid, RestWritten};

use lid::{CornerNumber, LidCounts, Mark};
use lid_clip::clip;
use lid_flat::{Flats, turn};
use lid_log::{put_entry, put_triangle};

// Room to cut a ring in: beside it the coordinates of the corner at each place, and a note of it.
#[derive(Drop)]
pub struct Room<'a> {
    pub ring: &'a mut [u32],
    pub xs: &'a mut [f32],
    pub ys: &'a mut [f32],
    pub notes: &'a mut [u32],
}

// Writes an entry for each corner left, from entry n of the log on.
fn put_left(ring: &[u32], log: &mut [u32], n: u32)
    requires { n + length ring.now < 2 ^ 32 }
    ensures { log.new ≡ log_with log.old n (map (λ a. entry 3 a 0 0) ring.now) }
{
    let mut entries = n;
    for corner in ring {
        put_entry(log, entries, Mark::Left.into(), *corner, 0, 0);
        entries += 1;
    }
}

// Writes the triangle of the corners left, if they are three that turn left. The result is how many triangles there then are.
fn put_last(polygon: Flats<'_>, ring: &[u32], triangles: &mut [u32], count: u32) -> u32
    requires { count + 1 < 2 ^ 32 }
    ensures value { result ≡ count + length (last_triangle (flats_in polygon.entry) ring.now) }
    ensures triangles_after { triangles.new ≡ triangles_with triangles.old count (last_triangle (flats_in polygon.entry) ring.now) }
{
    let &[a, b, c] = ring else {
        return count;
    };
    let u = polygon.at(CornerNumber(a));
    let v = polygon.at(CornerNumber(b));
    let w = polygon.at(CornerNumber(c));
    if turn(u, v, w) > 0.0 {
        put_triangle(triangles, count, a, b, c);
        return count + 1;
    }
    count
}

// Writes both of the corners left, from entry n of the log on. The result is how many entries and triangles there then are.
fn put_rest(
    polygon: Flats<'_>,
    ring: &[u32],
    log: &mut [u32],
    n: u32,
    triangles: &mut [u32],
    count: u32,
) -> LidCounts
    requires { (n + length ring.now < 2 ^ 32) × (count + 1 < 2 ^ 32) }
    ensures { RestWritten (flats_in polygon.entry) ring.now log n triangles count result }
{
    put_left(ring, log, n);
    let c = put_last(polygon, ring, triangles, count);
    LidCounts {
        entries: n + ring.len() as u32,
        triangles: c,
    }
}

// Clips the ring, from entry n of the log on, and writes what is left.
pub fn cut_ring(
    polygon: Flats<'_>,
    room: Room<'_>,
    log: &mut [u32],
    n: u32,
    triangles: &mut [u32],
) -> LidCounts
    requires ring_bound { n + length room.ring.now + 1 < 2 ^ 32 }
    requires rxs_len { (length room.xs.now ≡ length room.ring.now) × (length room.ys.now ≡ length room.ring.now) × (length room.notes.now ≡ length room.ring.now) }
    ensures { LidWritten (ring_lid (flats_in polygon.entry) room.entry.ring.now) log n triangles result }
{
    let Room {
        ring,
        xs,
        ys,
        notes,
    } = room;
    let c = clip(polygon, ring, xs, ys, notes, log, n, triangles);
    let first = ring.len() - c.left;
    put_rest(
        polygon,
        &ring[first..],
        log,
        c.entries,
        triangles,
        c.triangles,
    )
}
