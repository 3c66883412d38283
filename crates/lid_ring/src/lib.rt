// Rings of corner numbers as a lid writes them, turned.

#![tactic(auto)]

pub mod area;

ghost use Rattle.std.specs.Prelude.{◌≡◌, reverse, ◌+◌, ◌-◌, ◌<◌, ◌≤◌, ◌^◌, length};
ghost use Rattle.lists.specs.Loops.{list};
ghost use Rattle.lid.specs.Rings.{too_small};
ghost use Rattle.lid.specs.Contract.Steps.{turned};
ghost use Rattle.lid_flat.specs.Flats.{flats_in};

use crate::area::area;
use float::MIN_AREA;
use lid_flat::Flats;

// Numbers the places of a ring from `from` up.
#[tactic(auto, using(crate::proofs::RingLaws::up_next), unfolding(lists::specs::Loops::list))]
fn fill(ring: &mut [u32], from: u32)
    requires { from + length ring.old < 2 ^ 32 }
    ensures { ring.new ≡ list (λ i. i) (length ring.old) from }
{
    for (k, number) in ring.iter_mut().enumerate() {
        *number = from + k as u32;
    }
}

// Writes the ring of the corners from `from` on, turned as the outer ring or as a hole. Says whether it is too small.
#[tactic(auto, using(crate::proofs::RingLaws::ring_back, crate::proofs::RingLaws::ring_kept))]
pub fn write_ring(polygon: Flats<'_>, ring: &mut [u32], from: u32, outer: bool) -> bool
    requires { from + length ring.old < 2 ^ 32 }
    ensures value { result ≡ too_small (flats_in polygon.entry) (list (λ i. i) (length ring.old) from) }
    ensures ring_after { ring.new ≡ turned outer (flats_in polygon.entry) (list (λ i. i) (length ring.old) from) }
{
    fill(ring, from);
    let a = area(polygon, ring);
    let small = (ring.len() < 3) | (float_sign::abs(a) < MIN_AREA);
    if (a < 0.0) == outer {
        ring.reverse();
    }
    small
}
