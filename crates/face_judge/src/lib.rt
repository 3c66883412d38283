// The triangles of a face, one after the other: each is judged thin, or as it faces out or away, counted,
// and written if it is kept.

#![tactic(auto)]

pub mod quad;

ghost use Rattle.std.specs.Prelude.{◌≡◌, [], ◌∷◌, ◌+◌, ◌*◌, ◌<◌, ◌/◌, ◌^◌, length};
ghost use Rattle.std.proofs.lemmas.List.Edits.{sets};
ghost use Rattle.coords.specs.Buffers.{vertices_in};
ghost use Rattle.face_triangle.specs.Triangles.{triangle};
ghost use Rattle.face_triangle.specs.Contract.Triangles.{TriangleLow, triangle_at, triangles_in};
ghost use Rattle.face_judge.specs.Contract.Offered.{side_of, side_in, indices_of, gathered, quad_triangles, TrianglesAmong, CanOffer, OffersOne, OffersAll};

use coords::Point;
use coords_vector::Vector;

// How a triangle lies: thin, or with its cross product, as it faces out or away.
#[derive(Clone, Copy)]
pub enum Side {
    Thin,
    Front(Vector),
    Back(Vector),
}

// What a face's triangles come to.
#[derive(Clone, Copy)]
pub struct Sum {
    pub normal: Vector,
    pub kept: u32,
    pub thin: u32,
}

impl Sum {
    // Of no triangle.
    pub const NONE: Sum = Sum {
        normal: Vector::ZERO,
        kept: 0,
        thin: 0,
    };
}

// How a face's triangles are judged and written: how short a thin one's normal is, where the face
// looks, the number of its first vertex, and the place of its first kept triangle.
#[derive(Clone, Copy)]
pub struct Judge {
    pub limit: f32,
    pub out: Vector,
    pub base: u32,
    pub place: u32,
}

// One triangle offered: counted, and written at place n if it is kept.
#[tactic(auto, unfolding(crate::specs::Contract::Offered::gathered, crate::specs::Contract::Offered::indices_of))]
fn offer(s: Sum, k: Side, a: u32, b: u32, c: u32, n: u32, is: &mut [u32]) -> Sum
    requires { (s.kept + 1 < 2 ^ 32) × (s.thin + 1 < 2 ^ 32) }
    ensures { (result ≡ gathered k s) × (is.new ≡ sets is.old (3 * n) (indices_of k a b c)) }
{
    match k {
        Side::Thin => Sum {
            thin: s.thin + 1,
            ..s
        },
        Side::Front(v) => {
            buffer::put_three(is, n, a, b, c);
            Sum {
                normal: s.normal + v,
                kept: s.kept + 1,
                ..s
            }
        }
        Side::Back(v) => {
            buffer::put_three(is, n, a, c, b);
            Sum {
                normal: s.normal - v,
                kept: s.kept + 1,
                ..s
            }
        }
    }
}

impl Judge {
    #[tactic(auto, unfolding(crate::specs::Contract::Offered::side_of))]
    fn side(self, a: Point, b: Point, c: Point) -> Side
        ensures { result ≡ side_of self.limit self.out a b c }
    {
        let n = (b - a).cross(c - a);
        if coords::thin::shorter_than(n, self.limit) {
            return Side::Thin;
        }
        if n.dot(self.out) < 0.0 {
            Side::Back(n)
        } else {
            Side::Front(n)
        }
    }

    // How the triangle of three of the points lies.
    #[tactic(auto, using(buffer::proofs::Vertices::vertex_in), unfolding(crate::specs::Contract::Offered::side_in))]
    fn side_at(self, points: &[f32], a: usize, b: usize, c: usize) -> Side
        requires { TriangleLow (length points.now / 3) (triangle a b c) }
        ensures { result ≡ side_in self.limit (vertices_in points.now) self.out (triangle a b c) }
    {
        self.side(
            buffer::vertex_at(points, a),
            buffer::vertex_at(points, b),
            buffer::vertex_at(points, c),
        )
    }

    // The two triangles of a face of four points, from the first.
    pub fn offer_quad(self, a: Point, b: Point, c: Point, d: Point, is: &mut [u32]) -> Sum
        requires { (self.base + 3 < 2 ^ 32) × (self.place + 1 < 2 ^ 32) }
        ensures { OffersAll self.limit (a ∷ b ∷ c ∷ d ∷ []) self.out self.base self.place quad_triangles result is }
    {
        let base = self.base;
        let first = self.side(a, b, c);
        let s = offer(Sum::NONE, first, base, base + 1, base + 2, self.place, is);
        let second = self.side(a, c, d);
        let place = self.place + s.kept;
        offer(s, second, base, base + 2, base + 3, place, is)
    }

    // Triangle number j offered, behind those that come to s.
    #[tactic(auto, unfolding(crate::specs::Contract::Offered::offer_one))]
    fn offer_at(self, s: Sum, points: &[f32], triangles: &[u32], j: usize, is: &mut [u32]) -> Sum
        requires { CanOffer points.now triangles.now j self.base self.place s }
        ensures { OffersOne self.limit (vertices_in points.now) self.out self.base self.place (triangle_at triangles.now j) s result is }
    {
        let i = 3 * j;
        let a = triangles[i];
        let b = triangles[i + 1];
        let c = triangles[i + 2];
        let k = self.side_at(points, a as usize, b as usize, c as usize);
        let base = self.base;
        let place = self.place + s.kept;
        offer(s, k, base + a, base + b, base + c, place, is)
    }

    pub fn offer_all(self, points: &[f32], triangles: &[u32], is: &mut [u32]) -> Sum
        requires { (self.base + length points.now / 3 < 2 ^ 32) × (self.place + length triangles.now / 3 < 2 ^ 32) × TrianglesAmong points.now triangles.now }
        ensures { OffersAll self.limit (vertices_in points.now) self.out self.base self.place (triangles_in triangles.now) result is }
    {
        let mut s = Sum::NONE;
        for j in 0..triangles.len() / 3 {
            s = self.offer_at(s, points, triangles, j, is);
        }
        s
    }
}
