// Ear clipping of one ring, as the loop of `triangulate`. The coordinates of its corners are held beside it, in ring order, and notes of what is known
// of its places. The ring is what stands in its buffer behind the places cut off so far, since ears are found near the front: a corner that is cut off
// moves only those before it.

#![tactic(auto)]

ghost use Rattle.std.specs.Prelude.{◌≡◌, ◌+◌, ◌<◌, ◌≤◌, ◌^◌, length};
ghost use Rattle.lists.specs.Loops.{first};
ghost use Rattle.lid.specs.Rings.{turn};
ghost use Rattle.lid.specs.Marks.{mark_number};
ghost use Rattle.lid_flat.specs.Flats.{flats_in};
ghost use Rattle.lid.specs.Clipping.{is_straight, clip_step};
ghost use Rattle.lid.specs.Contract.Steps.{numbered, RingClipped};
ghost use Rattle.lid_clip_ear.specs.Contract.Ears.{Known};
ghost use Rattle.lid_clip_ear.specs.Contract.Laid.{InRingOrder};
ghost use Rattle.lid_clip_ear.specs.Contract.Notes.{NoneFrom, PlaceForgotten};
ghost use Rattle.lid_clip.specs.Contract.StepNotes.{step_notes};
ghost use Rattle.lid_clip.specs.Contract.Held.{Held, PlaceRemoved, CutWritten, known_after, StepTaken};

use float::MIN_AREA;
use lid::{Clipped, CornerNumber, Corners, Cut, Mark, RingPlace};
use lid_clip_ear::find_ear;
use lid_clip_ear::laid::LaidRing;
use lid_clip_ear::notes::{forget, forget_all};
use lid_flat::{Flats, turn};
use lid_log::{put_entry, put_triangle};
use lid_place::corners::corners_at;
use lid_place::remove;

// What is left where a corner was cut off: the place from which on there is no note, and how many triangles there then are.
#[derive(Clone, Copy)]
pub struct Stepped {
    pub known: usize,
    pub triangles: u32,
}

// Whether the corner at a place lies on a straight run.
fn is_straight(polygon: Flats<'_>, ring: &[u32], at: RingPlace) -> bool
    requires { at.0 < length ring.now }
    ensures { result ≡ is_straight (flats_in polygon.entry) ring.now at.0 }
{
    let t = corners_at(ring, at);
    let a = polygon.at(t.a);
    let b = polygon.at(t.b);
    let c = polygon.at(t.c);
    float_sign::abs(turn(a, b, c)) < MIN_AREA
}

// The first place on a straight run.
fn find_straight(polygon: Flats<'_>, ring: &[u32]) -> Option<RingPlace>
    ensures { numbered result ≡ first (is_straight (flats_in polygon.entry) ring.now) (length ring.now) 0 }
{
    for i in 0..ring.len() {
        let at = RingPlace(i);
        if is_straight(polygon, ring, at) {
            return Some(at);
        }
    }
    None
}

// What is done next: an ear is cut off, else a corner on a straight run is dropped, else clipping ends.
fn clip_step(polygon: Flats<'_>, laid: LaidRing<'_>, why: &mut [u32]) -> Option<Cut>
    requires why_len { length why.old ≡ length laid.ring.now }
    requires in_ring_order { InRingOrder (flats_in polygon) laid.ring.now laid.flats.xs.now laid.flats.ys.now }
    requires known { Known (flats_in polygon) laid.ring.now why.old }
    ensures value { result ≡ clip_step (flats_in polygon.entry) laid.entry.ring.now }
    ensures known_2 { Known (flats_in polygon.entry) laid.entry.ring.now why.new }
    ensures why_after { why.new ≡ step_notes (flats_in polygon.entry) laid.entry.ring.now why.old }
{
    if laid.ring.len() <= 3 {
        return None;
    }
    if let Some(place) = find_ear(polygon, laid, why) {
        return Some(Cut {
            mark: Mark::Ear,
            place,
        });
    }
    let place = find_straight(polygon, laid.ring)?;
    Some(Cut {
        mark: Mark::Dropped,
        place,
    })
}

// The place from which on there is no note, where a step cuts off the corner at a place of n: an ear is found before the places behind it are tried.
fn known_after(n: usize, known: usize, cut: Cut) -> usize
    requires { (cut.place.0 < n) × (known ≤ n) }
    ensures { (result ≡ known_after n known (mark_number cut.mark) cut.place.0) × (cut.place.0 < result) × (result ≤ n) }
{
    if cut.mark == Mark::Ear {
        return known.max(cut.place.0 + 1);
    }
    n
}

// Takes the corner at a place out of a ring and of what is held beside it. The slices are no struct: of parts that its fields would lend, callers can't
// prove what came back.
fn take_out(
    ring: &mut [u32],
    rxs: &mut [f32],
    rys: &mut [f32],
    why: &mut [u32],
    known: usize,
    at: RingPlace,
)
    requires at_in_bounds { (at.0 < length ring.old) × (at.0 < length rxs.old) × (at.0 < length rys.old) }
    requires at_lt_known { (at.0 < known) × (known ≤ length why.old) }
    requires none_from { NoneFrom known why.old }
    ensures place_removed { PlaceRemoved at.0 ring rxs rys }
    ensures place_forgotten { PlaceForgotten at.0 why }
{
    forget(why, at, known);
    remove(ring, at);
    remove(rxs, at);
    remove(rys, at);
}

// Writes the entry of a corner that is cut off and, for an ear, its triangle. The result is how many triangles there then are. Log and triangles are lent
// slices with how much of them is taken, since nothing is allocated.
fn put_cut(
    log: &mut [u32],
    n: u32,
    triangles: &mut [u32],
    count: u32,
    mark: Mark,
    t: Corners,
) -> u32
    requires { count + 1 < 2 ^ 32 }
    ensures { CutWritten (mark_number mark) t log n triangles count result }
{
    put_entry(log, n, mark.into(), t.a.0, t.b.0, t.c.0);
    if mark == Mark::Ear {
        put_triangle(triangles, count, t.a.0, t.b.0, t.c.0);
        return count + 1;
    }
    count
}

// A step of clipping: the corner, if there is one, goes out of the ring and what is held beside it, its entry to the log, an ear's triangle to the
// triangles.
fn clip_once<'a>(
    polygon: Flats<'_>,
    ring: &'a mut [u32],
    rxs: &'a mut [f32],
    rys: &'a mut [f32],
    why: &mut [u32],
    known: usize,
    log: &mut [u32],
    n: u32,
    triangles: &mut [u32],
    count: u32,
) -> Option<Stepped>
    requires held { Held (flats_in polygon) ring.old rxs.old rys.old why.old known }
    requires ring_bound { count + length ring.old < 2 ^ 32 }
    ensures { StepTaken (flats_in polygon.entry) ring rxs rys why log n triangles count result }
{
    let laid = LaidRing {
        ring,
        flats: Flats { xs: rxs, ys: rys },
    };
    let cut = clip_step(polygon, laid, why)?;
    let at = cut.place;
    let m = known_after(ring.len(), known, cut);
    let t = corners_at(ring, at);
    take_out(ring, rxs, rys, why, m, at);
    Some(Stepped {
        known: m - 1,
        triangles: put_cut(log, n, triangles, count, cut.mark, t),
    })
}

// Lays the coordinates of a ring's corners out in ring order.
fn lay_out(polygon: Flats<'_>, ring: &[u32], rxs: &mut [f32], rys: &mut [f32])
    requires { (length rxs.old ≡ length ring.now) × (length rys.old ≡ length ring.now) }
    ensures { InRingOrder (flats_in polygon.entry) ring.now rxs.new rys.new }
{
    for (k, p) in ring.iter().enumerate() {
        let f = polygon.at(CornerNumber(*p));
        rxs[k] = f.x;
        rys[k] = f.y;
    }
}

// Clips a ring that is held with its coordinates and no notes.
fn clip_held(
    polygon: Flats<'_>,
    ring: &mut [u32],
    rxs: &mut [f32],
    rys: &mut [f32],
    why: &mut [u32],
    log: &mut [u32],
    n: u32,
    triangles: &mut [u32],
) -> Clipped
    requires ring_bound { n + length ring.old < 2 ^ 32 }
    requires held { Held (flats_in polygon) ring.old rxs.old rys.old why.old 0 }
    ensures { RingClipped (flats_in polygon.entry) ring log n triangles result }
{
    let mut from = 0;
    let mut known = 0;
    let mut entries = n;
    let mut count = 0;
    while let Some(s) = clip_once(
        polygon,
        &mut ring[from..],
        &mut rxs[from..],
        &mut rys[from..],
        &mut why[from..],
        known,
        log,
        entries,
        triangles,
        count,
    ) {
        from += 1;
        known = s.known;
        entries += 1;
        count = s.triangles;
    }
    Clipped {
        left: ring.len() - from,
        entries,
        triangles: count,
    }
}

// Clips a ring, with room for the coordinates and a note of each place. Its entries go to the log from entry n on, and the ears to the triangles from the
// first; the corners left are the last ones of the ring.
pub fn clip(
    polygon: Flats<'_>,
    ring: &mut [u32],
    rxs: &mut [f32],
    rys: &mut [f32],
    why: &mut [u32],
    log: &mut [u32],
    n: u32,
    triangles: &mut [u32],
) -> Clipped
    requires ring_bound { n + length ring.old < 2 ^ 32 }
    requires rxs_len { (length rxs.old ≡ length ring.old) × (length rys.old ≡ length ring.old) × (length why.old ≡ length ring.old) }
    ensures { RingClipped (flats_in polygon.entry) ring log n triangles result }
{
    lay_out(polygon, ring, rxs, rys);
    forget_all(why);
    clip_held(polygon, ring, rxs, rys, why, log, n, triangles)
}
