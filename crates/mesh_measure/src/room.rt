// The room that objects need in the buffers, and whether the buffers have it.
ghost use Rattle.std.specs.Prelude.{◌≡◌, ◌≤◌, ltb};
ghost use Rattle.scene_field.specs.Layout.{most_objects};
ghost use Rattle.mesh.specs.Operations.{too_short};
ghost use Rattle.mesh_answer.specs.Answers.{counts_from};
ghost use Rattle.mesh_answer.specs.Contract.Answers.{lengths_from};
ghost use Rattle.mesh_bound.specs.Most.{numbers_of};
ghost use Rattle.mesh_bound.specs.Contract.Groups.{FewOfBoth};

use mesh_answer::{Counted, Lengths, numbers_for};
use mesh_bound::Most;
use refusal::Refusal;

// The numbers that n objects take in each buffer, by what they come to.
#[tactic(auto, using(mesh_bound::proofs::Few::few_fit))]
pub fn bound_counts(m: Most, n: u32) -> Counted
    requires { FewOfBoth m × (n ≤ most_objects) }
    ensures { counts_from result ≡ numbers_of m n }
{
    numbers_for(m.vertices, m.triangles, m.spans, n, m.entries)
}

// Whether a buffer that holds `has` numbers is too short for n.
fn short(has: usize, n: u32) -> bool
    ensures { result ≡ ltb has n }
{
    has < n as usize
}

// Whether buffers of these lengths have room, or by which row the first that has none is refused.
#[tactic(auto, unfolding(mesh::specs::Operations::too_short))]
pub fn room(has: Lengths, c: Counted) -> Result<(), Refusal>
    ensures { result ≡ too_short (lengths_from has) (counts_from c) }
{
    if short(has.vertices, c.vertices) | short(has.normals, c.normals) {
        return Err(Refusal::ShortVertices);
    }
    if short(has.indices, c.indices) {
        return Err(Refusal::ShortIndices);
    }
    if short(has.spans, c.spans) | short(has.account, c.account) | short(has.log, c.log) {
        return Err(Refusal::ShortRecords);
    }
    if short(has.millimetres, c.millimetres) {
        return Err(Refusal::ShortMillimetres);
    }
    Ok(())
}
