// Build, and then Validate on the measured first numbers of the buffers.

#![tactic(auto)]

ghost use Rattle.std.specs.Prelude.{◌≡◌, List};
ghost use Rattle.float.specs.Number.{min_area};
ghost use Rattle.object.specs.Object.{Object};
ghost use Rattle.scene.specs.Scene.{scene, accepted};
ghost use Rattle.mesh.specs.PerBuffer.{entering, leaving};
ghost use Rattle.mesh.specs.Operations.{counts_of, measure, build};
ghost use Rattle.mesh_answer.specs.Answers.{answer_of, judged_with, build_and_validate};
ghost use Rattle.mesh.specs.Demand3.{LongEnough, prefixes, Demand3Of};

use mesh_answer::{JudgedBuild, mesh_lengths};
use mesh_build::build;

pub fn build_and_validate(
    s: &[u8],
    vertices: &mut [f32],
    normals: &mut [f32],
    indices: &mut [u32],
    spans: &mut [u32],
    account: &mut [u32],
    log: &mut [u32],
    millimetres: &mut [i64],
) -> JudgedBuild
    ensures same { judged_with result (leaving vertices normals indices spans account log millimetres)
        ≡ build_and_validate s.now (entering vertices normals indices spans account log millimetres) }
    ensures demand3 { (os : List Object)
        → scene s.now ≡ accepted os
        → LongEnough (counts_of (entering vertices normals indices spans account log millimetres)) (measure s.now).counts
        → Demand3Of min_area os (prefixes (answer_of result.answer).counts (leaving vertices normals indices spans account log millimetres)) result.validation }
{
    let answer = build(
        s,
        vertices,
        normals,
        indices,
        spans,
        account,
        log,
        millimetres,
    );
    let m = mesh_lengths(answer);
    let v = m.vertices;
    let i = m.indices;
    let validation = validate_mesh::validate(&vertices[..v], &indices[..i]);
    JudgedBuild { answer, validation }
}
