// The functions that C calls, with their answers in numbers.
ghost use Rattle.std.specs.Prelude.{◌≡◌};
ghost use Rattle.validate.specs.Numbers.{validation_numbers};
ghost use Rattle.validate.specs.Validate.{validate};
ghost use Rattle.mesh.specs.PerBuffer.{entering, leaving};
ghost use Rattle.mesh.specs.Operations.{measure, build};
ghost use Rattle.mesh_answer.specs.Answers.{answer_from};
ghost use Rattle.mesh_bound.specs.Most.{bound};

use mesh_answer::Answer;
use validate::Judgement;

#[unsafe(no_mangle)]
pub extern "C" fn object_mesh_measure(scene: &[u8]) -> Answer
    ensures { answer_from result ≡ measure scene.now }
{
    Answer::from(mesh_measure::measure(scene))
}

#[unsafe(no_mangle)]
pub extern "C" fn object_mesh_bound(scene: &[u8]) -> Answer
    ensures { answer_from result ≡ bound scene.now }
{
    Answer::from(mesh_measure::bound(scene))
}

#[unsafe(no_mangle)]
pub extern "C" fn object_mesh_build(
    scene: &[u8],
    vertices: &mut [f32],
    normals: &mut [f32],
    indices: &mut [u32],
    spans: &mut [u32],
    account: &mut [u32],
    log: &mut [u32],
    millimetres: &mut [i64],
) -> Answer
    ensures answer { answer_from result ≡ (build scene.now (entering vertices normals indices spans account log millimetres)).answer }
    ensures written { leaving vertices normals indices spans account log millimetres
        ≡ (build scene.now (entering vertices normals indices spans account log millimetres)).buffers }
{
    Answer::from(mesh_build::build(
        scene,
        vertices,
        normals,
        indices,
        spans,
        account,
        log,
        millimetres,
    ))
}

#[unsafe(no_mangle)]
pub extern "C" fn object_mesh_validate(vertices: &[f32], indices: &[u32]) -> Judgement
    ensures { result ≡ validation_numbers (validate vertices.now indices.now) }
{
    Judgement::from(validate_mesh::validate(vertices, indices))
}
