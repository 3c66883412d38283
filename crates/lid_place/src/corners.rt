// The corner numbers at the places of a ring.
ghost use Rattle.std.specs.Prelude.{◌≡◌, ◌<◌, length, get_or};
ghost use Rattle.lid.specs.Contract.Steps.{corner_of, corners_around};

use crate::{place_after, place_before};
use lid::{CornerNumber, Corners, RingPlace};

// The corner number at a place of a ring.
fn number_in(ring: &[u32], at: RingPlace) -> CornerNumber
    requires { at.0 < length ring.now }
    ensures { result ≡ corner_of (get_or ring.now at.0 0) }
{
    let i = at.0;
    CornerNumber(ring[i])
}

// The same, 0 past the end.
pub fn number_at(ring: &[u32], at: RingPlace) -> CornerNumber
    ensures { result ≡ corner_of (get_or ring.now at.0 0) }
{
    CornerNumber(ring.get(at.0).copied().unwrap_or(0))
}

// The corners before, at and after a place.
pub fn corners_at(ring: &[u32], at: RingPlace) -> Corners
    requires { at.0 < length ring.now }
    ensures { result ≡ corners_around ring.now at.0 }
{
    let n = ring.len();
    let before = place_before(n, at);
    let after = place_after(n, at);
    Corners {
        a: number_in(ring, before),
        b: number_in(ring, at),
        c: number_in(ring, after),
    }
}
