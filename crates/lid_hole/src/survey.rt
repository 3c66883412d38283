// All holes of an outline surveyed: how far right each reaches, and which are skipped.
ghost use Rattle.std.specs.Prelude.{◌≡◌, ◌∷◌, [], ◌+◌, ◌<◌, ◌≤◌, ◌^◌, length};
ghost use Rattle.lists.specs.Loops.{sum_of, over};
ghost use Rattle.lid.specs.Rings.{too_small, right};
ghost use Rattle.lid_flat.specs.Flats.{flats_in};
ghost use Rattle.lid.specs.Contract.Written.{log_with, corner_total};
ghost use Rattle.lid_hole.specs.Contract.Holes.{hole_corners, hole_ring, HoleFits, rights_of, small_of, all_holes_over, skips, all_skips};

use crate::write_hole;
use lid::{CornerCounts, Mark, Surveyed};
use lid_flat::Flats;
use lid_log::put_entry;
use lid_ring::area::right;

fn survey_hole(polygon: Flats<'_>, counts: CornerCounts<'_>, hole: &mut [u32], g: usize) -> Surveyed
    requires { HoleFits counts.outer counts.holes.now hole.old g }
    ensures right_value { result.right ≡ right (flats_in polygon.entry) (hole_ring (flats_in polygon.entry) counts.entry.outer counts.entry.holes.now g) }
    ensures small_value { result.small ≡ too_small (flats_in polygon.entry) (hole_corners counts.entry.outer counts.entry.holes.now g) }
    ensures hole_after { hole.new ≡ over (hole_ring (flats_in polygon.entry) counts.entry.outer counts.entry.holes.now g) hole.old }
{
    let small = write_hole(polygon, counts, hole, g);
    let h = counts.holes[g] as usize;
    let right = right(polygon, &hole[..h]);
    Surveyed { right, small }
}

// Writes hole g's entry, if it is skipped. The result is how many entries there then are.
#[tactic(auto, unfolding(crate::specs::Contract::Holes::skips, lid::specs::Log::log_numbers, lists::specs::Loops::join))]
fn put_skip(small: bool, log: &mut [u32], n: u32, g: u32) -> u32
    requires { n + 1 < 2 ^ 32 }
    ensures value { result ≡ n + length (skips g (small ∷ [])) }
    ensures log_after { log.new ≡ log_with log.old n (skips g (small ∷ [])) }
{
    if small {
        put_entry(log, n, Mark::HoleTooSmall as u32, g, 0, 0);
        return n + 1;
    }
    n
}

// Surveys all holes: what is found of them stands in the first places of `rights` and `small`, and each that is skipped has its entry, from
// the first of the log on. The result is how many those are.
pub fn survey(
    polygon: Flats<'_>,
    counts: CornerCounts<'_>,
    hole: &mut [u32],
    rights: &mut [f32],
    small: &mut [bool],
    log: &mut [u32],
) -> u32
    requires counts_bound { (corner_total counts.outer counts.holes.now < 2 ^ 32) × (length counts.holes.now < 2 ^ 31) }
    requires counts_in_bounds { sum_of (λ n. n) counts.holes.now ≤ length hole.old }
    requires counts_in_bounds_2 { (length counts.holes.now ≤ length rights.old) × (length counts.holes.now ≤ length small.old) }
    ensures rights_after { rights.new ≡ over (rights_of (flats_in polygon.entry) counts.entry.outer counts.entry.holes.now) rights.old }
    ensures small_after { small.new ≡ over (small_of (flats_in polygon.entry) counts.entry.outer counts.entry.holes.now) small.old }
    ensures value { result ≡ length (all_skips (flats_in polygon.entry) counts.entry.outer counts.entry.holes.now) }
    ensures log_after { log.new ≡ log_with log.old 0 (all_skips (flats_in polygon.entry) counts.entry.outer counts.entry.holes.now) }
    ensures hole_after { hole.new ≡ all_holes_over (flats_in polygon.entry) counts.entry.outer counts.entry.holes.now hole.old }
{
    let mut n = 0;
    for g in 0..counts.holes.len() {
        let s = survey_hole(polygon, counts, hole, g);
        rights[g] = s.right;
        small[g] = s.small;
        n = put_skip(s.small, log, n, g as u32);
    }
    n
}
