// Notes of how far the tests of a ring's places have come, and what becomes of them where a corner is removed.
// A place is an ear if it passes every test: test 0 is its turn, and test k + 1 the corner at place k. The note 2 j says that the tests below
// test j pass, and 2 j + 1 that test j fails besides.
ghost use Rattle.std.specs.Prelude.{◌≡◌, map, ◌+◌, ◌<◌, ◌≤◌, length, replicate};
ghost use Rattle.lid_clip_ear.specs.Contract.Notes.{failed_at, capped, down, moved_by, moved_before, NoneFrom, PlaceForgotten};

use lid::RingPlace;
use lid_place::{place_after, place_before};

// The note of a place that fails test 0.
pub const UNTURNED: u32 = 1;

// Forgets every note.
pub fn forget_all(why: &mut [u32])
    ensures { why.new ≡ replicate (length why.old) 0 }
{
    why.fill(0);
}

// The note of a place that passes the tests before that of the corner at place `at`, and fails this one. Where that is too far for a note, it says of
// as many tests as it can that they pass.
pub(crate) fn failed(at: RingPlace) -> u32
    ensures { result ≡ failed_at (at.0 + 1) }
{
    let k = at.0;
    // No `try_from`: of a greater place the sum may not fit a `usize` either.
    if k < 0x7FFF_FFFE {
        return (2 * k + 3) as u32;
    }
    0xFFFF_FFFE
}

// The greatest note that does not rest on the test of the corner at a place, as far as notes go.
fn unmoved(at: RingPlace) -> u32
    ensures { result ≡ capped at.0 }
{
    let i = at.0;
    if i < 0x7FFF_FFFF {
        return (2 * i + 2) as u32;
    }
    0xFFFF_FFFF
}

// One less, above `low`.
fn lowered(q: u32, low: u32) -> u32
    ensures { result ≡ down low q }
{
    if low < q {
        return q - 1;
    }
    q
}

// Moves every note, where a corner is removed on whose test only notes above `low` rest.
fn shift_all(why: &mut [u32], low: u32)
    ensures { why.new ≡ map (moved_by low) why.old }
{
    for q in why.iter_mut() {
        *q = lowered(lowered(*q, low), low);
    }
}

// The same for the notes before a place, which take the places behind theirs; the first place keeps its note.
fn shift_before(why: &mut [u32], at: RingPlace, low: u32)
    requires { at.0 < length why.old }
    ensures { why.new ≡ moved_before low at.0 why.old }
{
    let i = at.0;
    why.copy_within(..i, 1);
    shift_all(&mut why[1..i + 1], low);
}

// The notes where the corner at a place is removed: those of its neighbours, whose triangles change, start anew, and the others move. There is none
// from place `known` on, where nothing need be done.
pub fn forget(why: &mut [u32], at: RingPlace, known: usize)
    requires at_lt_known { (at.0 < known) × (known ≤ length why.old) }
    requires none_from { NoneFrom known why.old }
    ensures { PlaceForgotten at.0 why }
{
    let n = why.len();
    let i = at.0;
    let h = place_before(n, at).0;
    let j = place_after(n, at).0;
    let low = unmoved(at);
    why[h] = 0;
    why[j] = 0;
    let behind = i + 1;
    shift_all(&mut why[behind..known], low);
    shift_before(why, at, low);
}
