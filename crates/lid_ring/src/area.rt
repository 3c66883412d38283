// A ring's area, and its greatest first coordinate.
ghost use Rattle.std.specs.Prelude.{◌≡◌, ◌+◌, ◌<◌, length};
ghost use Rattle.lid.specs.Rings.{area_step, area, right_step, right};
ghost use Rattle.lid_flat.specs.Flats.{flats_in};

use lid::{CornerNumber, RingPlace};
use lid_flat::{Flats, turn};
use lid_place::place_after;

// The area so far with the turn of one more triangle of the fan.
#[tactic(auto, unfolding(lid::specs::Rings::turn_of))]
fn area_step(polygon: Flats<'_>, ring: &[u32], at: RingPlace, sum: f32) -> f32
    requires { at.0 < length ring.now }
    ensures { result ≡ area_step (flats_in polygon.entry) ring.now at.0 sum }
{
    let next = place_after(ring.len(), at);
    let a = polygon.at_place(ring, RingPlace(0));
    let b = polygon.at_place(ring, at);
    let c = polygon.at_place(ring, next);
    sum + turn(a, b, c)
}

// Twice a ring's area, rounded as the Rust rounds it.
#[tactic(auto, using(lists::proofs::Loops::loop_start, lists::proofs::Loops::loop_next, lists::proofs::Loops::loop_end), unfolding(lid::specs::Rings::area))]
pub fn area(polygon: Flats<'_>, ring: &[u32]) -> f32
    ensures { result ≡ area (flats_in polygon.entry) ring.now }
{
    let mut sum = 0.0;
    for k in 0..ring.len() {
        sum = area_step(polygon, ring, RingPlace(k), sum);
    }
    sum
}

fn right_step(polygon: Flats<'_>, best: f32, c: CornerNumber) -> f32
    ensures { result ≡ right_step (flats_in polygon.entry) best c.0 }
{
    let f = polygon.at(c);
    float_sign::max(best, f.x)
}

// A ring's greatest first coordinate.
#[tactic(auto, using(crate::proofs::FoldLaws::fold_next, crate::proofs::FoldLaws::fold_end), unfolding(lid::specs::Rings::right))]
pub fn right(polygon: Flats<'_>, ring: &[u32]) -> f32
    ensures { result ≡ right (flats_in polygon.entry) ring.now }
{
    let mut best = f32::MIN;
    for c in ring {
        best = right_step(polygon, best, CornerNumber(*c));
    }
    best
}
