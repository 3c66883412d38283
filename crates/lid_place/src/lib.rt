// The places of a ring: their neighbours, and a corner taken out.

#![tactic(auto)]

pub mod corners;

ghost use Rattle.std.specs.Prelude.{◌≡◌, ◌<◌, ◌++◌, length, take};
ghost use Rattle.lists.specs.Loops.{next, previous, remove_at};

use lid::RingPlace;

// The place before, in a ring of n places.
pub fn place_before(n: usize, at: RingPlace) -> RingPlace
    requires { at.0 < n }
    ensures { (result.0 ≡ previous n at.0) × (result.0 < n) }
{
    let i = at.0;
    if i == 0 {
        return RingPlace(n - 1);
    }
    RingPlace(i - 1)
}

// The place after, in a ring of n places.
pub fn place_after(n: usize, at: RingPlace) -> RingPlace
    requires { at.0 < n }
    ensures { (result.0 ≡ next n at.0) × (result.0 < n) }
{
    let i = at.0;
    if i + 1 == n {
        return RingPlace(0);
    }
    RingPlace(i + 1)
}

// Takes what stands at a place out of a ring, a corner or its coordinate: what stands before it moves up, and the first place keeps its own.
#[tactic(auto, using(crate::proofs::RemoveLaws::removing_next, crate::proofs::RemoveLaws::removing_end))]
pub fn remove<T: Copy>(ring: &mut [T], at: RingPlace)
    requires { at.0 < length ring.old }
    ensures { ring.new ≡ take 1 ring.old ++ remove_at at.0 ring.old }
{
    for j in (0..at.0).rev() {
        ring[j + 1] = ring[j];
    }
}
