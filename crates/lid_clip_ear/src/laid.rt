// A ring's corners tested against the triangle at one of its places, four at a time.
ghost use Rattle.std.specs.Prelude.{◌≡◌, ◌+◌, ◌<◌, ◌≤◌, length};
ghost use Rattle.lid.specs.Contract.Steps.{numbered, clear_by};
ghost use Rattle.lid_clip_ear.specs.Contract.Ears.{told, behind};
ghost use Rattle.lid_clip_ear.specs.Contract.Laid.{Evenly, flat_at, clear_at, beyond_at, four, first_at, ClearUpTo};

use crate::notes::failed;
use lid::{CornerNumber, Corners, Flat, RingPlace};
use lid_flat::{Flats, turn};

// A place's corners, by number and flat: they are a triangle if the place is an ear.
#[derive(Clone, Copy)]
pub struct Candidate {
    pub corners: Corners,
    pub a: Flat,
    pub b: Flat,
    pub c: Flat,
}

// A ring, and beside it the flat corners at its places. Their coordinates stand in two slices, so that four of one kind are read at once.
#[derive(Clone, Copy)]
pub struct LaidRing<'a> {
    pub ring: &'a [u32],
    pub flats: Flats<'a>,
}

impl Candidate {
    // Whether corner p, at q, does not stand in the way.
    fn clear(self, p: CornerNumber, q: Flat) -> bool
        ensures { result ≡ clear_by self.corners self.a self.b self.c p.0 q }
    {
        (p.0 == self.corners.a.0)
            | (p.0 == self.corners.b.0)
            | (p.0 == self.corners.c.0)
            | (turn(self.a, self.b, q) < 0.0)
            | (turn(self.b, self.c, q) < 0.0)
            | (turn(self.c, self.a, q) < 0.0)
    }
}

impl<'a> LaidRing<'a> {
    // The flat corner at place k.
    fn flat_at(self, k: usize) -> Flat
        requires { (k < length self.flats.xs.now) × (k < length self.flats.ys.now) }
        ensures { result ≡ flat_at self.entry k }
    {
        Flat {
            x: self.flats.xs[k],
            y: self.flats.ys[k],
        }
    }

    // Whether the corner at place k does not stand in the way of the triangle t.
    fn clear_at(self, t: Candidate, k: usize) -> bool
        requires { (k < length self.ring.now) × (k < length self.flats.xs.now) × (k < length self.flats.ys.now) }
        ensures { result ≡ clear_at self.entry t k }
    {
        t.clear(CornerNumber(self.ring[k]), self.flat_at(k))
    }

    // Whether the corner at place k lies beyond the diagonal, which is enough for it to be clear.
    fn beyond_at(self, t: Candidate, k: usize) -> bool
        requires { (k < length self.flats.xs.now) × (k < length self.flats.ys.now) }
        ensures { result ≡ beyond_at self.entry t k }
    {
        turn(t.c, t.a, self.flat_at(k)) < 0.0
    }

    // Whether the four corners from place k on are clear. There is no branch, so that the compiler tests them at once.
    fn clear_four(self, t: Candidate, k: usize) -> bool
        requires { (k + 4 ≤ length self.ring.now) × (k + 4 ≤ length self.flats.xs.now) × (k + 4 ≤ length self.flats.ys.now) }
        ensures { result ≡ four (clear_at self.entry t) k }
    {
        self.clear_at(t, k)
            & self.clear_at(t, k + 1)
            & self.clear_at(t, k + 2)
            & self.clear_at(t, k + 3)
    }

    // The same of the diagonal alone.
    fn beyond_four(self, t: Candidate, k: usize) -> bool
        requires { (k + 4 ≤ length self.flats.xs.now) × (k + 4 ≤ length self.flats.ys.now) }
        ensures { result ≡ four (beyond_at self.entry t) k }
    {
        self.beyond_at(t, k)
            & self.beyond_at(t, k + 1)
            & self.beyond_at(t, k + 2)
            & self.beyond_at(t, k + 3)
    }

    // A place up to which the corners from place `from` on are clear, by fours: most lie beyond the diagonal.
    fn pass_clear(self, t: Candidate, from: usize) -> usize
        requires evenly { Evenly self }
        requires from_in_bounds { from ≤ length self.ring.now }
        ensures { ClearUpTo self.entry t from result }
    {
        let mut k = from;
        // By fours, as long as four are left: a `for` would not tell where it stopped.
        while 4 <= self.ring.len() - k {
            if self.beyond_four(t, k) {
                k += 4;
                continue;
            }
            if !self.clear_four(t, k) {
                return k;
            }
            k += 4;
        }
        k
    }

    // The first place from `from` on whose corner stands in the way.
    fn find_from(self, t: Candidate, from: usize) -> Option<RingPlace>
        requires { Evenly self }
        ensures { numbered result ≡ first_at self.entry t from }
    {
        for k in from..self.ring.len() {
            if !self.clear_at(t, k) {
                return Some(RingPlace(k));
            }
        }
        None
    }

    // The same, by fours behind the first corner: where the tests go on behind a corner that was cut off, the next one often stands in the way.
    fn find_block(self, t: Candidate, from: RingPlace) -> Option<RingPlace>
        requires { Evenly self }
        ensures { numbered result ≡ first_at self.entry t from.0 }
    {
        let k = from.0;
        if self.ring.len() <= k {
            return None;
        }
        if !self.clear_at(t, k) {
            return Some(from);
        }
        self.find_from(t, self.pass_clear(t, k + 1))
    }

    // The note of the place of t, where a corner from place `from` on stands in its way.
    pub(crate) fn test(self, t: Candidate, from: RingPlace) -> Option<u32>
        requires { Evenly self }
        ensures { result ≡ told (behind (first_at self.entry t from.0)) }
    {
        self.find_block(t, from).map(failed)
    }
}
