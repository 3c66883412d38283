// Where the ray from a hole's rightmost corner meets the ring, as in `bridge`.
ghost use Rattle.std.specs.Prelude.{◌≡◌, ◌+◌, ◌<◌, ◌≤◌, length};
ghost use Rattle.lid_flat.specs.Flats.{flats_in};
ghost use Rattle.lid.specs.Bridges.{rightmost_step, rightmost, passes, meets, no_nearer, hit_edge, hit_at, first_hit};
ghost use Rattle.lid_bridge.specs.Contract.Hits.{passes_at, PassedOver};

use lid::{Flat, Hit, RingPlace};
use lid_flat::Flats;
use lid_place::place_after;

// Of two places of a hole the one further right, and `at` if neither is.
fn rightmost_step(polygon: Flats<'_>, hole: &[u32], at: RingPlace, best: RingPlace) -> RingPlace
    requires { (at.0 < length hole.now) × (best.0 < length hole.now) }
    ensures { (result.0 ≡ rightmost_step (flats_in polygon.entry) hole.now at.0 best.0) × (result.0 < length hole.now) }
{
    let a = polygon.at_place(hole, at);
    let b = polygon.at_place(hole, best);
    if float_sign::total_less(a.x, b.x) {
        return best;
    }
    at
}

// The last of a hole's rightmost places.
#[tactic(auto, using(lists::proofs::Loops::loop_start, lists::proofs::Loops::loop_next, lists::proofs::Loops::loop_end), unfolding(lid::specs::Bridges::rightmost))]
pub fn rightmost(polygon: Flats<'_>, hole: &[u32]) -> RingPlace
    requires { 0 < length hole.now }
    ensures { (result.0 ≡ rightmost (flats_in polygon.entry) hole.now) × (result.0 < length hole.now) }
{
    let mut best = RingPlace(0);
    for k in 0..hole.len() {
        best = rightmost_step(polygon, hole, RingPlace(k), best);
    }
    best
}

// Whether the edge from a to b does not meet the line through m along x.
#[tactic(auto, unfolding(lid::specs::Bridges::passes))]
fn passes(m: Flat, a: Flat, b: Flat) -> bool
    ensures { result ≡ passes m a b }
{
    (a.y == b.y) | (((a.y > m.y) == (b.y > m.y)) & (a.y != m.y) & (b.y != m.y))
}

// Where the edge from a to b meets that line.
#[tactic(auto, unfolding(lid::specs::Bridges::meets))]
fn meets(m: Flat, a: Flat, b: Flat) -> f32
    ensures { result ≡ meets m a b }
{
    a.x + (m.y - a.y) * (b.x - a.x) / (b.y - a.y)
}

// Whether x is no nearer than what was hit before.
#[tactic(auto, unfolding(lid::specs::Bridges::no_nearer))]
fn no_nearer(h: Option<Hit>, x: f32) -> bool
    ensures { result ≡ no_nearer h x }
{
    match h {
        Some(best) => x >= best.x,
        None => false,
    }
}

// The hit after the edge from a, at place k, to b, at place j.
#[tactic(auto, unfolding(lid::specs::Bridges::hit_edge))]
fn hit_edge(m: Flat, a: Flat, b: Flat, k: RingPlace, j: RingPlace, h: Option<Hit>) -> Option<Hit>
    ensures { result ≡ hit_edge m a b k.0 j.0 h }
{
    if passes(m, a, b) {
        return h;
    }
    let x = meets(m, a, b);
    if (x < m.x) | no_nearer(h, x) {
        return h;
    }
    if a.x > b.x {
        return Some(Hit { x, end: k });
    }
    Some(Hit { x, end: j })
}

// The hit after the edge from a place of the ring on.
#[tactic(auto, unfolding(lid::specs::Bridges::hit_at))]
fn hit_at(polygon: Flats<'_>, ring: &[u32], m: Flat, at: RingPlace, h: Option<Hit>) -> Option<Hit>
    requires { at.0 < length ring.now }
    ensures { result ≡ hit_at (flats_in polygon.entry) ring.now m at.0 h }
{
    let j = place_after(ring.len(), at);
    let a = polygon.at_place(ring, at);
    let b = polygon.at_place(ring, j);
    hit_edge(m, a, b, at, j, h)
}

// Whether the edge from a place of the ring on does not meet the line through m along x.
fn passes_at(polygon: Flats<'_>, ring: &[u32], m: Flat, at: RingPlace) -> bool
    requires { at.0 < length ring.now }
    ensures { result ≡ passes_at (flats_in polygon.entry) ring.now m at.0 }
{
    let j = place_after(ring.len(), at);
    let a = polygon.at_place(ring, at);
    let b = polygon.at_place(ring, j);
    passes(m, a, b)
}

// The next place, from `start` on, whose edge meets that line. Most edges do not, so they are passed
// over before anything is told of a hit.
fn next_met(polygon: Flats<'_>, ring: &[u32], m: Flat, start: usize) -> usize
    ensures { (start ≤ result) × PassedOver (flats_in polygon.entry) ring.now m start result }
{
    // No `for`: behind the last edge the answer is the place that was come to.
    let mut k = start;
    while k < ring.len() {
        if !passes_at(polygon, ring, m, RingPlace(k)) {
            return k;
        }
        k += 1;
    }
    k
}

// Where the ray from m meets the ring first.
pub fn first_hit(polygon: Flats<'_>, ring: &[u32], m: Flat) -> Option<Hit>
    ensures { result ≡ first_hit (flats_in polygon.entry) ring.now m }
{
    let mut h = None;
    let mut k = next_met(polygon, ring, m, 0);
    while k < ring.len() {
        h = hit_at(polygon, ring, m, RingPlace(k), h);
        k = next_met(polygon, ring, m, k + 1);
    }
    h
}
