// A whole lid, as `triangulate`, with the log.

#![tactic(auto)]

ghost use Rattle.std.specs.Prelude.{◌≡◌, ◌+◌, ◌<◌, ◌≤◌, ◌^◌, length, take};
ghost use Rattle.lists.specs.Loops.{sum_of};
ghost use Rattle.lists.specs.Loops.{list};
ghost use Rattle.object.specs.Limits.{most_holes, most_corners};
ghost use Rattle.lid.specs.Rings.{turn_outer};
ghost use Rattle.lid_flat.specs.Flats.{flats_in};
ghost use Rattle.lid.specs.Lid.{lid_of};
ghost use Rattle.lid.specs.Contract.Written.{corner_total, LidWritten};
ghost use Rattle.lid_triangulate.specs.Contract.Opened.{HolesPrepared, lid_open, BuffersFit};

use lid::{CornerCounts, LidCounts, Mark, Prepared};
use lid_cut::{Room, cut_ring};
use lid_flat::Flats;
use lid_hole::hole_start;
use lid_hole::order::order_holes;
use lid_hole::survey::survey;
use lid_join::join_holes;
use lid_log::put_entry;
use lid_ring::write_ring;
use object::MOST_HOLES;

// Writes the entries of the holes that are skipped, and puts the others in joining order.
fn prepare(
    polygon: Flats<'_>,
    counts: CornerCounts<'_>,
    hole: &mut [u32],
    order: &mut [u32],
    log: &mut [u32],
) -> Prepared
    requires counts_bound { (corner_total counts.outer counts.holes.now < 2 ^ 32) × (length counts.holes.now ≤ most_holes) }
    requires counts_in_bounds { sum_of (λ n. n) counts.holes.now ≤ length hole.old }
    requires counts_in_bounds_2 { length counts.holes.now ≤ length order.old }
    ensures { HolesPrepared (flats_in polygon.entry) counts.entry.outer counts.entry.holes.now (length hole.old) order log result }
{
    let mut rights = [0.0; MOST_HOLES];
    let mut small = [false; MOST_HOLES];
    let entries = survey(polygon, counts, hole, &mut rights, &mut small, log);
    let n = counts.holes.len();
    let holes = order_holes(&rights[..n], &small[..n], order);
    Prepared { entries, holes }
}

// Cuts a lid whose outer ring stands turned in the first places of `ring`. `hole` holds the corners of a hole that is joined, and then the notes.
// The four slices are no `Room` yet: two fields of one that are lent at once are not covered by the borrow checker.
fn cut_open(
    polygon: Flats<'_>,
    counts: CornerCounts<'_>,
    ring: &mut [u32],
    hole: &mut [u32],
    xs: &mut [f32],
    ys: &mut [f32],
    log: &mut [u32],
    triangles: &mut [u32],
) -> LidCounts
    requires buffers_fit { BuffersFit counts.outer counts.holes.now (length ring.old) (length hole.old) }
    requires rxs_len { (length xs.old ≡ length ring.old) × (length ys.old ≡ length ring.old) }
    requires ring_value { take counts.outer ring.old ≡ turn_outer (flats_in polygon) (list (λ i. i) counts.outer 0) }
    ensures { LidWritten (lid_open (flats_in polygon.entry) counts.entry.outer counts.entry.holes.now) log 0 triangles result }
{
    let mut order = [0; MOST_HOLES];
    let p = prepare(polygon, counts, hole, &mut order, log);
    let c = p.holes;
    let outer = counts.outer as usize;
    let m = join_holes(
        polygon,
        counts,
        &order[..c],
        ring,
        outer,
        hole,
        log,
        p.entries,
    );
    let room = Room {
        ring: &mut ring[..m],
        xs: &mut xs[..m],
        ys: &mut ys[..m],
        notes: &mut hole[..m],
    };
    cut_ring(polygon, room, log, p.entries + c as u32, triangles)
}

// Cuts a lid, as `triangulate`, with room to work in.
fn cut_lid(
    polygon: Flats<'_>,
    counts: CornerCounts<'_>,
    ring: &mut [u32],
    hole: &mut [u32],
    xs: &mut [f32],
    ys: &mut [f32],
    log: &mut [u32],
    triangles: &mut [u32],
) -> LidCounts
    requires buffers_fit { BuffersFit counts.outer counts.holes.now (length ring.old) (length hole.old) }
    requires rxs_len { (length xs.old ≡ length ring.old) × (length ys.old ≡ length ring.old) }
    ensures { LidWritten (lid_of (flats_in polygon.entry) counts.entry.outer counts.entry.holes.now) log 0 triangles result }
{
    let m = counts.outer as usize;
    if write_ring(polygon, &mut ring[..m], 0, true) {
        put_entry(log, 0, Mark::LidTooSmall as u32, 0, 0, 0);
        return LidCounts {
            entries: 1,
            triangles: 0,
        };
    }
    cut_open(polygon, counts, ring, hole, xs, ys, log, triangles)
}

// Cuts a lid that has at most N places when its holes are joined.
fn cut_within<const N: usize>(
    polygon: Flats<'_>,
    counts: CornerCounts<'_>,
    log: &mut [u32],
    triangles: &mut [u32],
) -> LidCounts
    requires { BuffersFit counts.outer counts.holes.now N N }
    ensures { LidWritten (lid_of (flats_in polygon.entry) counts.entry.outer counts.entry.holes.now) log 0 triangles result }
{
    let mut ring = [0; N];
    let mut hole = [0; N];
    let mut xs = [0.0; N];
    let mut ys = [0.0; N];
    cut_lid(
        polygon, counts, &mut ring, &mut hole, &mut xs, &mut ys, log, triangles,
    )
}

// Cuts the lid of an outline's flat corners: `counts.outer` corners and then those of the holes. Its log goes to the front of `log`, and its triangles,
// three corner numbers each, to the front of `triangles`.
pub fn triangulate(
    polygon: Flats<'_>,
    counts: CornerCounts<'_>,
    log: &mut [u32],
    triangles: &mut [u32],
) -> LidCounts
    requires { (corner_total counts.outer counts.holes.now ≤ most_corners) × (length counts.holes.now ≤ most_holes) }
    ensures { LidWritten (lid_of (flats_in polygon.entry) counts.entry.outer counts.entry.holes.now) log 0 triangles result }
{
    let n = counts.holes.len();
    // Most lids have few corners, and small arrays are cleared sooner.
    if hole_start(counts, n) as usize + 2 * n <= 32 {
        return cut_within::<32>(polygon, counts, log, triangles);
    }
    cut_within::<576>(polygon, counts, log, triangles)
}
