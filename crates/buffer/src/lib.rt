// Lent slices: points read from them, floats and whole numbers stored in them. A store past the end is
// left out, so the same code measures on empty slices and writes on long ones.

#![tactic(auto)]

ghost use Rattle.std.specs.Prelude.{◌≡◌, [], ◌∷◌, ◌+◌, ◌*◌, ◌<◌, ◌/◌, ◌^◌, length, set};
ghost use Rattle.std.proofs.lemmas.List.Edits.{sets};
ghost use Rattle.coords.specs.Buffers.{vertex_at};

use coords::Point;

// Point number k of a slice of three numbers to a point.
pub fn vertex_at(vertices: &[f32], k: usize) -> Point
    requires { k < length vertices.now / 3 }
    ensures { result ≡ vertex_at vertices.now k }
{
    let i = 3 * k;
    Point {
        x: vertices[i],
        y: vertices[i + 1],
        z: vertices[i + 2],
    }
}

pub fn put<T: Copy>(s: &mut [T], at: usize, x: T)
    ensures { s.new ≡ set s.old at x }
{
    if at < s.len() {
        s[at] = x;
    }
}

// Three values at place n, counted in threes.
pub fn put_three<T: Copy>(s: &mut [T], n: u32, x: T, y: T, z: T)
    ensures { s.new ≡ sets s.old (3 * n) (x ∷ y ∷ z ∷ []) }
{
    let at = 3 * (n as usize);
    put(s, at, x);
    put(s, at + 1, y);
    put(s, at + 2, z);
}

// Four values from a place on. One function with `put_three`, over an array, would store in a loop and
// ask of both what is asked of the place here: no plainer.
pub fn put_four<T: Copy>(s: &mut [T], at: usize, w: T, x: T, y: T, z: T)
    requires { at + 3 < 2 ^ 64 }
    ensures { s.new ≡ sets s.old at (w ∷ x ∷ y ∷ z ∷ []) }
{
    put(s, at, w);
    put(s, at + 1, x);
    put(s, at + 2, y);
    put(s, at + 3, z);
}
