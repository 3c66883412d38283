// Holes joined to the ring, one after the other.

#![tactic(auto)]

ghost use Rattle.std.specs.Prelude.{◌≡◌, ◌+◌, ◌<◌, ◌≤◌, ◌^◌, length, get_or};
ghost use Rattle.lists.specs.Each.{Each};
ghost use Rattle.lists.specs.Loops.{over};
ghost use Rattle.lid_flat.specs.Flats.{flats_in};
ghost use Rattle.lid.specs.Contract.Written.{corner_total};
ghost use Rattle.lid_hole.specs.Contract.Holes.{hole_ring, holes_numbered, holes_over, Joinable};
ghost use Rattle.lid_join.specs.Contract.Joined.{HoleJoined, HolesJoined, places_joined};

use lid::{CornerCounts, Mark};
use lid_bridge::bridge;
use lid_flat::Flats;
use lid_hole::write_hole;
use lid_log::put_entry;
use lid_splice::splice;

// Ring and log are lent slices with how much of them is taken, since nothing is allocated.
// Joins a hole to the ring of m places. The result is how many places the ring then has.
fn join(
    polygon: Flats<'_>,
    ring: &mut [u32],
    m: usize,
    hole: &[u32],
    log: &mut [u32],
    n: u32,
    g: u32,
) -> usize
    requires { (0 < length hole.now) × (m + length hole.now + 2 ≤ length ring.old) × (length ring.old < 2 ^ 32) }
    ensures { HoleJoined (flats_in polygon.entry) hole.now g ring m log n result }
{
    match bridge(polygon, &ring[..m], hole) {
        Some(b) => {
            let t = b.place.0 as u32;
            let j = b.from.0 as u32;
            put_entry(log, n, Mark::Joined as u32, g, t, j);
            let e = m + hole.len() + 2;
            splice(&mut ring[..e], b.place, hole, b.from);
            e
        }
        None => {
            put_entry(log, n, Mark::Apart as u32, g, 0, 0);
            m
        }
    }
}

// Joins hole g, whose corners are first written to `hole`.
fn join_hole(
    polygon: Flats<'_>,
    counts: CornerCounts<'_>,
    ring: &mut [u32],
    m: usize,
    hole: &mut [u32],
    log: &mut [u32],
    n: u32,
    g: u32,
) -> usize
    requires counts_bound { corner_total counts.outer counts.holes.now < 2 ^ 32 }
    requires joinable { Joinable counts.holes.now (length hole.old) g }
    requires g_in_bounds { (m + get_or counts.holes.now g 0 + 2 ≤ length ring.old) × (length ring.old < 2 ^ 32) }
    ensures hole_joined { HoleJoined (flats_in polygon.entry) (hole_ring (flats_in polygon.entry) counts.entry.outer counts.entry.holes.now g) g ring m log n result }
    ensures hole_after { hole.new ≡ over (hole_ring (flats_in polygon.entry) counts.entry.outer counts.entry.holes.now g) hole.old }
{
    let k = g as usize;
    write_hole(polygon, counts, hole, k);
    let h = counts.holes[k] as usize;
    join(polygon, ring, m, &hole[..h], log, n, g)
}

// Joins the holes of an order to the ring of m places, from entry n of the log on. The result is how many places the ring then has.
pub fn join_holes(
    polygon: Flats<'_>,
    counts: CornerCounts<'_>,
    order: &[u32],
    ring: &mut [u32],
    m: usize,
    hole: &mut [u32],
    log: &mut [u32],
    n: u32,
) -> usize
    requires counts_bound { corner_total counts.outer counts.holes.now < 2 ^ 32 }
    requires each { Each (Joinable counts.holes.now (length hole.old)) order.now }
    requires order_in_bounds { (m + places_joined counts.holes.now order.now ≤ length ring.old) × (length ring.old < 2 ^ 32) × (n + length order.now < 2 ^ 32) }
    ensures holes_joined { HolesJoined (flats_in polygon.entry) (holes_numbered (flats_in polygon.entry) counts.entry.outer counts.entry.holes.now order.now) ring m log n result }
    ensures hole_after { hole.new ≡ holes_over (flats_in polygon.entry) counts.entry.outer counts.entry.holes.now order.now hole.old }
{
    let mut places = m;
    let mut entries = n;
    for g in order {
        places = join_hole(polygon, counts, ring, places, hole, log, entries, *g);
        entries += 1;
    }
    places
}
