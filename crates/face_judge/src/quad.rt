// The thin triangles of a face of four points, counted where nothing is written.
ghost use Rattle.std.specs.Prelude.{◌≡◌, List, [], ◌∷◌, ℕ, ◌≤◌};
ghost use Rattle.coords_vector.specs.declared.Vector.{Vector};
ghost use Rattle.face_judge.specs.Contract.Offered.{offer_all, quad_triangles};

use coords::Point;
use coords::thin::no_area;

// How many triangles of a face of four points are thin, which is all that counts where nothing is written.
pub fn thin_in_quad(a: Point, b: Point, c: Point, d: Point, limit: f32) -> u32
    ensures upper_bound { result ≤ 2 }
    ensures value { (out : Vector) (base n : ℕ) (is : List ℕ) → result ≡ (offer_all limit (a ∷ b ∷ c ∷ d ∷ []) out base n is quad_triangles).sum.thin }
{
    let x = no_area(limit, a, b, c) as u32;
    let y = no_area(limit, a, c, d) as u32;
    x + y
}
