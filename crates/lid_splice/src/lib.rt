// A hole put into a ring, and a number into a list, in place.

#![tactic(auto)]

ghost use Rattle.std.specs.Prelude.{◌≡◌, ◌++◌, ◌+◌, ◌<◌, ◌≤◌, length, take, drop};
ghost use Rattle.lid.specs.Bridges.{splice};
ghost use Rattle.lid.specs.Contract.Steps.{insert_at, but_last};

use lid::RingPlace;

// Inserts v as number i of a list: those from there on move up, over the last.
#[tactic(auto, using(crate::proofs::SpliceLaws::inserted))]
pub fn insert(numbers: &mut [u32], i: usize, v: u32)
    requires { i < length numbers.old }
    ensures { numbers.new ≡ insert_at i v (but_last 1 numbers.old) }
{
    numbers[i..].rotate_right(1);
    numbers[i] = v;
}

// Splices a hole in behind a place: from its place j round to j again, and the place's corner again.
pub fn splice(ring: &mut [u32], at: RingPlace, hole: &[u32], j: RingPlace)
    requires hole_in_bounds { at.0 + length hole.now + 2 < length ring.old }
    requires j_in_bounds { j.0 < length hole.now }
    ensures { ring.new ≡ splice (but_last (length hole.now + 2) ring.old) hole.now at.0 j.0 }
{
    let t = at.0;
    let b = j.0;
    let h = hole.len();
    let back = ring[t];
    let room = &mut ring[t + 1..];
    room.copy_within(..room.len() - (h + 2), h + 2);
    room[..h - b].copy_from_slice(&hole[b..]);
    room[h - b..h + 1].copy_from_slice(&hole[..b + 1]);
    room[h + 1] = back;
}
