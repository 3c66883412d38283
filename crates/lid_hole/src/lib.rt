// A hole of an outline: where its corners start, and its corners, turned, with whether it is too small.

#![tactic(auto)]

pub mod order;
pub mod survey;

ghost use Rattle.std.specs.Prelude.{◌≡◌, ◌<◌, ◌≤◌, ◌^◌, length};
ghost use Rattle.lists.specs.Loops.{over};
ghost use Rattle.lid.specs.Rings.{too_small};
ghost use Rattle.lid_flat.specs.Flats.{flats_in};
ghost use Rattle.lid.specs.Contract.Written.{corner_total};
ghost use Rattle.lid_hole.specs.Contract.Holes.{hole_start, hole_corners, hole_ring, HoleFits};

use lid::CornerCounts;
use lid_flat::Flats;
use lid_ring::write_ring;

// The number of hole g's first corner; past the last hole, how many corners there are.
#[tactic(auto, using(crate::proofs::HoleLaws::start_first, crate::proofs::HoleLaws::start_next, crate::proofs::HoleLaws::start_in))]
pub fn hole_start(counts: CornerCounts<'_>, g: usize) -> u32
    requires g_in_bounds { g ≤ length counts.holes.now }
    requires counts_bound { corner_total counts.outer counts.holes.now < 2 ^ 32 }
    ensures { result ≡ hole_start counts.entry.outer counts.entry.holes.now g }
{
    let mut start = counts.outer;
    for k in 0..g {
        start += counts.holes[k];
    }
    start
}

// Writes hole g, turned, to the first places of `hole`. Says whether it is too small.
pub fn write_hole(polygon: Flats<'_>, counts: CornerCounts<'_>, hole: &mut [u32], g: usize) -> bool
    requires { HoleFits counts.outer counts.holes.now hole.old g }
    ensures value { result ≡ too_small (flats_in polygon.entry) (hole_corners counts.entry.outer counts.entry.holes.now g) }
    ensures hole_after { hole.new ≡ over (hole_ring (flats_in polygon.entry) counts.entry.outer counts.entry.holes.now g) hole.old }
{
    let h = counts.holes[g] as usize;
    let from = hole_start(counts, g);
    write_ring(polygon, &mut hole[..h], from, false)
}
