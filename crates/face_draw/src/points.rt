// A face's points stored in the lent buffers, each with the face's normal.
ghost use Rattle.std.specs.Prelude.{◌+◌, ◌<◌, ◌/◌, ◌^◌, length};
ghost use Rattle.coords.specs.Buffers.{vertices_in};
ghost use Rattle.coords_vector.specs.Vectors.{unit_z, normalize_or};
ghost use Rattle.face_draw.specs.Contract.Stored.{Stores};

use coords_vector::Vector;

// All points, each with the normal, from place at on.
fn put_vertices(points: &[f32], normal: Vector, at: u32, vs: &mut [f32], ns: &mut [f32])
    requires { at + length points.now / 3 < 2 ^ 32 }
    ensures { Stores (vertices_in points.now) normal at vs ns }
{
    let n = (points.len() / 3) as u32;
    for k in 0..n {
        let p = buffer::vertex_at(points, k as usize);
        buffer::put_three(vs, at + k, p.x, p.y, p.z);
        buffer::put_three(ns, at + k, normal.x, normal.y, normal.z);
    }
}

// All points, each with the normal of the sum, from place at on. Without any room, as where a scene is
// measured, no normal is worked out.
pub fn put_points(points: &[f32], sum: Vector, at: u32, vs: &mut [f32], ns: &mut [f32])
    requires { at + length points.now / 3 < 2 ^ 32 }
    ensures { Stores (vertices_in points.now) (normalize_or sum unit_z) at vs ns }
{
    if vs.is_empty() && ns.is_empty() {
        return;
    }
    let normal = sum.normalize_or(Vector::Z);
    put_vertices(points, normal, at, vs, ns);
}
