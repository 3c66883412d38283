// Whether a mesh can back a physics collider, and if not, why: `Mesh::validate` of mesh.rs.

#![tactic(auto)]

mod faults;

ghost use Rattle.std.specs.Prelude.{◌≡◌, cond, get_or, leb, Ok, Err};
ghost use Rattle.coords.specs.Buffers.{vertices_in};
ghost use Rattle.validate.specs.declared.MeshError.TheVariants.{IndexOutOfRange};
ghost use Rattle.validate.specs.Validate.{triangles_from, validate_at, validate};
ghost use Rattle.validate.specs.Contract.Validate.{verdict_on_triangle};

use crate::faults::{degenerate, first_not_finite};
use float::MIN_AREA;
use refusal::Refusal;
use validate::{MeshError, Validation, Verdict};

// The place of the vertex that triangle t names, where there is one among n.
fn place_of(t: usize, index: u32, n: usize) -> Result<usize, MeshError>
    ensures { result ≡ cond (leb n index) (Err (IndexOutOfRange t index n)) (Ok index) }
{
    let place = index as usize;
    if n <= place {
        return Err(MeshError::IndexOutOfRange(t, index, n));
    }
    Ok(place)
}

// What is wrong with triangle t, of the vertices numbered a, b and c, if anything is.
#[tactic(auto, unfolding(validate::specs::Contract::Validate::verdict_on_triangle), using(buffer::proofs::Vertices::length_vertices))]
fn triangle(limit: f32, vertices: &[f32], t: usize, a: u32, b: u32, c: u32) -> Verdict
    ensures { result ≡ verdict_on_triangle limit (vertices_in vertices.now) t a b c }
{
    let n = vertices.len() / 3;
    let x = place_of(t, a, n)?;
    let y = place_of(t, b, n)?;
    let z = place_of(t, c, n)?;
    if degenerate(limit, vertices, x, y, z) {
        return Err(MeshError::DegenerateTriangle(t));
    }
    Ok(())
}

fn index_or(indices: &[u32], i: usize, otherwise: u32) -> u32
    ensures { result ≡ get_or indices.now i otherwise }
{
    indices.get(i).copied().unwrap_or(otherwise)
}

// The triangles' verdict, where all vertices are finite. A triangle that lacks a corner repeats the
// corner before it, and so it is degenerate.
fn triangles(limit: f32, vertices: &[f32], indices: &[u32]) -> Verdict
    ensures { result ≡ triangles_from limit (vertices_in vertices.now) 0 indices.now }
{
    for (t, corners) in indices.chunks(3).enumerate() {
        let a = corners[0];
        let b = index_or(corners, 1, a);
        let c = index_or(corners, 2, b);
        triangle(limit, vertices, t, a, b, c)?;
    }
    Ok(())
}

// At a limit below which a triangle is thin.
#[tactic(auto, unfolding(validate::specs::Validate::validate_at, validate::specs::Validate::verdict, validate::specs::Validate::verdict_at))]
fn validate_at(limit: f32, vertices: &[f32], indices: &[u32]) -> Validation
    ensures { result ≡ validate_at limit vertices.now indices.now }
{
    let partial = vertices.len() % 3 != 0;
    if partial {
        return Err(Refusal::PartialVertex);
    }
    let empty = indices.len() == 0;
    if empty {
        return Ok(Err(MeshError::Empty));
    }
    match first_not_finite(vertices) {
        Some(k) => Ok(Err(MeshError::NonFiniteVertex(k))),
        None => Ok(triangles(limit, vertices, indices)),
    }
}

#[tactic(auto, unfolding(validate::specs::Validate::validate))]
pub fn validate(vertices: &[f32], indices: &[u32]) -> Validation
    ensures { result ≡ validate vertices.now indices.now }
{
    validate_at(MIN_AREA, vertices, indices)
}
