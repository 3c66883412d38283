// The search for an ear. How far a place's tests have come is noted, so that they go on from there, and a place that failed one is passed over.

#![tactic(auto)]

pub mod laid;
pub mod notes;

ghost use Rattle.std.specs.Prelude.{◌≡◌, ◌+◌, ◌-◌, ◌/◌, ◌<◌, length};
ghost use Rattle.lists.specs.Loops.{first};
ghost use Rattle.lid.specs.Clipping.{is_ear};
ghost use Rattle.lid.specs.Contract.Steps.{numbered};
ghost use Rattle.lid_flat.specs.Flats.{flats_in};
ghost use Rattle.lid_clip_ear.specs.Contract.Ears.{Known, tested, searched};
ghost use Rattle.lid_clip_ear.specs.Contract.Laid.{InRingOrder};

use crate::laid::{Candidate, LaidRing};
use crate::notes::UNTURNED;
use lid::RingPlace;
use lid_flat::{Flats, turn};
use lid_place::corners::corners_at;

// The place of the first corner that the note q says nothing of.
fn first_corner(q: u32) -> usize
    ensures { result ≡ q / 2 - 1 }
{
    (q / 2).saturating_sub(1) as usize
}

// The note of a place that is no ear, from the first test on that its note q says nothing of; an ear has none.
fn test_place(polygon: Flats<'_>, laid: LaidRing<'_>, at: RingPlace, q: u32) -> Option<u32>
    requires at_in_bounds { at.0 < length laid.ring.now }
    requires in_ring_order { InRingOrder (flats_in polygon) laid.ring.now laid.flats.xs.now laid.flats.ys.now }
    ensures { result ≡ tested (flats_in polygon.entry) laid.entry.ring.now at.0 q }
{
    let corners = corners_at(laid.ring, at);
    let a = polygon.at(corners.a);
    let b = polygon.at(corners.b);
    let c = polygon.at(corners.c);
    // One call, so that it is inlined: else the corners go through memory.
    if (1 < q) | (turn(a, b, c) > 0.0) {
        let from = RingPlace(first_corner(q));
        return laid.test(Candidate { corners, a, b, c }, from);
    }
    Some(UNTURNED)
}

// The first place that is an ear. A place that is noted to fail a test is passed over, and what is found of the others is noted.
pub fn find_ear(polygon: Flats<'_>, laid: LaidRing<'_>, why: &mut [u32]) -> Option<RingPlace>
    requires why_len { length why.old ≡ length laid.ring.now }
    requires in_ring_order { InRingOrder (flats_in polygon) laid.ring.now laid.flats.xs.now laid.flats.ys.now }
    requires known { Known (flats_in polygon) laid.ring.now why.old }
    ensures result_value { numbered result ≡ first (is_ear (flats_in polygon.entry) laid.entry.ring.now) (length laid.entry.ring.now) 0 }
    ensures why_after { why.new ≡ searched (flats_in polygon.entry) laid.entry.ring.now (length laid.entry.ring.now) 0 why.old }
    ensures known_2 { Known (flats_in polygon.entry) laid.entry.ring.now why.new }
{
    for i in 0..laid.ring.len() {
        let q = why[i];
        if q % 2 == 1 {
            continue;
        }
        let at = RingPlace(i);
        let Some(w) = test_place(polygon, laid, at, q) else {
            return Some(at);
        };
        why[i] = w;
    }
    None
}
