// What can be wrong with a mesh: a vertex that is not finite, a triangle that is degenerate.
ghost use Rattle.std.specs.Prelude.{◌≡◌, ◌+◌, ◌<◌, ◌/◌, length};
ghost use Rattle.lists.specs.Loops.{first, every, list};
ghost use Rattle.coords.specs.Coords.{finite_point};
ghost use Rattle.coords.specs.Buffers.{vertex_at, vertices_in};
ghost use Rattle.validate.specs.Faults.{not_finite, degenerate};
ghost use Rattle.validate.specs.Contract.Validate.{not_finite_from};

use buffer::vertex_at;
use coords::thin::no_area;

// Whether the four vertices from number k on are finite. No test waits for another, so the compiler
// makes them several at a time.
fn four_finite(vertices: &[f32], k: usize) -> bool
    requires { k + 3 < length vertices.now / 3 }
    ensures { result ≡ every finite_point (list (vertex_at vertices.now) 4 k) }
{
    vertex_at(vertices, k).is_finite()
        & vertex_at(vertices, k + 1).is_finite()
        & vertex_at(vertices, k + 2).is_finite()
        & vertex_at(vertices, k + 3).is_finite()
}

// The number of a vertex before which all are finite: four at a time are passed over. A `for` with
// `step_by` needs a measure too, and the place where the fours end twice: no plainer.
fn pass_finite(vertices: &[f32]) -> usize
    ensures { not_finite_from (vertices_in vertices.now) result ≡ not_finite_from (vertices_in vertices.now) 0 }
{
    let n = vertices.len() / 3;
    let mut k = 0;
    while k + 3 < n {
        if !four_finite(vertices, k) {
            return k;
        }
        k += 4;
    }
    k
}

fn not_finite_from(vertices: &[f32], start: usize) -> Option<usize>
    ensures { result ≡ not_finite_from (vertices_in vertices.now) start }
{
    for k in start..vertices.len() / 3 {
        if !vertex_at(vertices, k).is_finite() {
            return Some(k);
        }
    }
    None
}

pub fn first_not_finite(vertices: &[f32]) -> Option<usize>
    ensures { result ≡ first (not_finite (vertices_in vertices.now)) (length (vertices_in vertices.now)) 0 }
{
    not_finite_from(vertices, pass_finite(vertices))
}

// Whether a triangle of vertices that there are repeats one or has too little area.
pub fn degenerate(limit: f32, vertices: &[f32], a: usize, b: usize, c: usize) -> bool
    requires { (a < length vertices.now / 3) × (b < length vertices.now / 3) × (c < length vertices.now / 3) }
    ensures { result ≡ degenerate limit (vertices_in vertices.now) a b c }
{
    let thin = no_area(
        limit,
        vertex_at(vertices, a),
        vertex_at(vertices, b),
        vertex_at(vertices, c),
    );
    (a == b) | (b == c) | (a == c) | thin
}
