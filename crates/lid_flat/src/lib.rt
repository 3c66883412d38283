// Flat corners by number and by place of a ring, and the turn of three corners.

#![tactic(auto)]

ghost use Rattle.std.specs.Prelude.{◌≡◌, ◌<◌, length, get_or};
ghost use Rattle.float.specs.Number.{zerof};
ghost use Rattle.lid.specs.Rings.{corner, turn};
ghost use Rattle.lid_flat.specs.Flats.{flats_in};

use lid::{CornerNumber, Flat, RingPlace};

// A number's coordinate, 0 past the last.
pub fn coordinate(s: &[f32], i: usize) -> f32
    ensures { result ≡ get_or s.now i zerof }
{
    s.get(i).copied().unwrap_or(0.0)
}

// The flat corners of an outline, whose coordinates two slices hold, as a caller lends room for them.
#[derive(Clone, Copy)]
pub struct Flats<'a> {
    pub xs: &'a [f32],
    pub ys: &'a [f32],
}

impl<'a> Flats<'a> {
    // The corner with a number; zeros past the last.
    #[tactic(auto, using(crate::proofs::FlatLaws::flat_in, crate::proofs::FlatLaws::flat_none))]
    pub fn at(self, c: CornerNumber) -> Flat
        ensures { result ≡ corner (flats_in self.entry) c.0 }
    {
        let i = c.0 as usize;
        if i < self.xs.len() {
            return Flat {
                x: self.xs[i],
                y: coordinate(self.ys, i),
            };
        }
        Flat { x: 0.0, y: 0.0 }
    }

    // The corner at a place of a ring.
    pub fn at_place(self, ring: &[u32], at: RingPlace) -> Flat
        requires { at.0 < length ring.now }
        ensures { result ≡ corner (flats_in self.entry) (get_or ring.now at.0 0) }
    {
        let i = at.0;
        self.at(CornerNumber(ring[i]))
    }
}

// Twice the area of a, b, c, above 0 where they turn left at b, each operation rounded.
#[tactic(auto, unfolding(lid::specs::Rings::turn))]
pub fn turn(a: Flat, b: Flat, c: Flat) -> f32
    ensures { result ≡ turn a b c }
{
    (b.x - a.x) * (c.y - a.y) - (b.y - a.y) * (c.x - a.x)
}
