// How a hole is joined to the ring, as `bridge`.

#![tactic(auto)]

mod ray;

ghost use Rattle.std.specs.Prelude.{◌≡◌, ◌+◌, ◌<◌, length};
ghost use Rattle.lists.specs.Loops.{first};
ghost use Rattle.lid.specs.Rings.{corner};
ghost use Rattle.lid_flat.specs.Flats.{flats_in};
ghost use Rattle.lid.specs.Bridges.{inside, slope_of, seen_at, visible, sits_in, is_copy, copy_of, bridge};
ghost use Rattle.lid.specs.Contract.Steps.{numbered, ray_to};

use crate::ray::{first_hit, rightmost};
use lid::{Bridge, CornerNumber, Flat, Ray, RingPlace, Seen};
use lid_flat::{Flats, turn};
use lid_place::corners::{corners_at, number_at};

// Whether r lies in the triangle m, i, p, whose turn has the sign s.
#[tactic(auto, unfolding(lid::specs::Bridges::inside))]
fn inside(m: Flat, i: Flat, p: Flat, s: f32, r: Flat) -> bool
    ensures { result ≡ inside m i p s r }
{
    if turn(m, i, r) * s >= 0.0 {
        return (turn(i, p, r) * s >= 0.0) & (turn(p, m, r) * s >= 0.0);
    }
    false
}

#[tactic(auto, unfolding(lid::specs::Bridges::slope_of))]
fn slope(m: Flat, r: Flat) -> f32
    ensures { result ≡ slope_of m r }
{
    float_sign::abs(r.y - m.y) / float_sign::max(r.x - m.x, f32::MIN_POSITIVE)
}

// The shallowest slope so far, with the corner at one more place. The ray's end is p.
#[tactic(auto, unfolding(lid::specs::Bridges::seen_at))]
fn seen_at(polygon: Flats<'_>, ring: &[u32], ray: Ray, p: Flat, at: RingPlace, best: Seen) -> Seen
    requires at_in_bounds { at.0 < length ring.now }
    requires p_value { p ≡ corner (flats_in polygon) ray.end.0 }
    ensures { result ≡ seen_at (flats_in polygon.entry) ring.now ray.m ray.i ray.end.0 ray.s at.0 best }
{
    let k = at.0;
    let c = ring[k];
    let r = polygon.at(CornerNumber(c));
    if (ray.s == 0.0) | (c == ray.end.0) | (r.x < ray.m.x) {
        return best;
    }
    if !inside(ray.m, ray.i, p, ray.s, r) {
        return best;
    }
    let y = slope(ray.m, r);
    if y < best.slope {
        return Seen {
            slope: y,
            place: at,
        };
    }
    best
}

// The ray from m that meets at i an edge whose rightmost end stands at `target`.
fn ray_to(polygon: Flats<'_>, ring: &[u32], m: Flat, i: Flat, target: RingPlace) -> Ray
    ensures { result ≡ ray_to (flats_in polygon.entry) ring.now m i target.0 }
{
    let end = number_at(ring, target);
    let p = polygon.at(end);
    let s = float_sign::signum(turn(m, i, p));
    Ray { m, i, end, s }
}

// The place that m sees, where the ray meets at i an edge whose rightmost end stands at `target`.
fn visible(polygon: Flats<'_>, ring: &[u32], m: Flat, i: Flat, target: RingPlace) -> RingPlace
    ensures { result.0 ≡ visible (flats_in polygon.entry) ring.now m i target.0 }
{
    let ray = ray_to(polygon, ring, m, i, target);
    let p = polygon.at(ray.end);
    let mut best = Seen {
        slope: f32::INFINITY,
        place: target,
    };
    for k in 0..ring.len() {
        best = seen_at(polygon, ring, ray, p, RingPlace(k), best);
    }
    best.place
}

// Whether m sits in the corner at v between a and b.
#[tactic(auto, unfolding(lid::specs::Bridges::sits_in))]
fn sits_in(m: Flat, a: Flat, v: Flat, b: Flat) -> bool
    ensures { result ≡ sits_in m a v b }
{
    let l1 = turn(a, v, m) > 0.0;
    let l2 = turn(v, b, m) > 0.0;
    if turn(a, v, b) >= 0.0 {
        l1 & l2
    } else {
        l1 | l2
    }
}

// Whether a place holds corner c and m sits in it there.
#[tactic(auto, unfolding(lid::specs::Bridges::is_copy))]
fn is_copy(polygon: Flats<'_>, ring: &[u32], m: Flat, c: CornerNumber, at: RingPlace) -> bool
    requires { at.0 < length ring.now }
    ensures { result ≡ is_copy (flats_in polygon.entry) ring.now m c.0 at.0 }
{
    let t = corners_at(ring, at);
    if t.b.0 != c.0 {
        return false;
    }
    let a = polygon.at(t.a);
    let v = polygon.at(c);
    let b = polygon.at(t.c);
    sits_in(m, a, v, b)
}

// The first such place.
#[tactic(auto, using(lists::proofs::Loops::first_start, lists::proofs::Loops::first_found, lists::proofs::Loops::first_next, lists::proofs::Loops::first_end))]
fn find_copy(polygon: Flats<'_>, ring: &[u32], m: Flat, c: CornerNumber) -> Option<RingPlace>
    ensures { numbered result ≡ first (is_copy (flats_in polygon.entry) ring.now m c.0) (length ring.now) 0 }
{
    for k in 0..ring.len() {
        let at = RingPlace(k);
        if is_copy(polygon, ring, m, c, at) {
            return Some(at);
        }
    }
    None
}

// Of the places that hold the corner at `target`, the first that m sits in, or `target` where there is none.
fn copy_of(polygon: Flats<'_>, ring: &[u32], m: Flat, target: RingPlace) -> RingPlace
    ensures { result.0 ≡ copy_of (flats_in polygon.entry) ring.now m target.0 }
{
    let c = number_at(ring, target);
    find_copy(polygon, ring, m, c).unwrap_or(target)
}

// Where a hole is joined to the ring.
#[tactic(auto, unfolding(lid::specs::Bridges::bridge, lid::specs::Bridges::bridge_at))]
pub fn bridge(polygon: Flats<'_>, ring: &[u32], hole: &[u32]) -> Option<Bridge>
    requires { 0 < length hole.now }
    ensures { result ≡ bridge (flats_in polygon.entry) ring.now hole.now }
{
    let j = rightmost(polygon, hole);
    let m = polygon.at_place(hole, j);
    let hit = first_hit(polygon, ring, m)?;
    let seen = visible(polygon, ring, m, Flat { x: hit.x, y: m.y }, hit.end);
    Some(Bridge {
        place: copy_of(polygon, ring, m, seen),
        from: j,
    })
}
